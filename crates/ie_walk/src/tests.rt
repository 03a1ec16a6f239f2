// Refusals 1, 2 and 3 of the walk, what repeats and what ends it, and a message divided under a pile of layers.
use crate::comprehension::Comprehension;
use crate::divide::divide;
use crate::faults::{IeFault, MessageFault, OctetFault, Placed};
use crate::ie::Token;
use crate::message::Message;
use crate::protocol::ProtocolFamily;
use crate::reader::Reader;
use crate::walk::Walk;
use ie_catalogue::catalogue::Catalogue;
use ie_catalogue::direction::Link;
use ie_catalogue::lent::LentRows;
use ie_catalogue::release::Release;
use ie_catalogue::row::{Direction, EntryRow, Format, Presence, Test};
use ie_catalogue::view::View;
use std::test::Fail;

const MESSAGE: [u8; 65536] = [0x80; 65536];

fn row(iei: u8, format: Format, length: u16, release: u8) -> EntryRow {
    EntryRow {
        iei,
        format,
        least: length,
        greatest: length,
        release,
        direction: Direction::Up,
        ..EntryRow::OPTIONAL
    }
}

fn refusal<C: Catalogue>(catalogue: &C, octets: &[u8], imperative_end: usize) -> u8 {
    let reader = Reader {
        catalogue,
        rule: &ProtocolFamily::FiveGs,
    };
    let message = Message {
        octets,
        imperative_end,
    };
    divide(reader, message)
        .err()
        .map_or(0, MessageFault::number)
}

#[test]
fn starting(rt: HostRuntime) -> Result<(), Fail> {
    let empty = LentRows::lend(&[])?;
    assert_eq!(rt; refusal(&empty, &MESSAGE, 0), 1);
    assert_eq!(rt; refusal(&empty, &MESSAGE[0..65535], 65535), 0);
    assert_eq!(rt; refusal(&empty, &MESSAGE[0..6], 7), 2);
    assert_eq!(rt; refusal(&empty, &MESSAGE[0..6], 6), 0);
    Ok(())
}

#[test]
fn truncated_again_and_again(rt: HostRuntime) -> Result<(), Fail> {
    let rows = [row(0x12, Format::Tv, 1, 15)];
    let catalogue = LentRows::lend(&rows)?;
    let reader = Reader {
        catalogue: &catalogue,
        rule: &ProtocolFamily::FiveGs,
    };
    let message = Message {
        octets: &[0x80, 0x12],
        imperative_end: 0,
    };
    let mut walk = Walk::start(reader, message)?;
    let fault = MessageFault::Truncated(Placed {
        thing: IeFault {
            iei: 0x12,
            octets: OctetFault {
                needed: 2,
                at_hand: 1,
            },
        },
        place: 1,
    });
    let _ = walk.step()?;
    for _ in 0..2 {
        let again = walk.step().err().ok_or("the value is lacking")?;
        assert_eq!(rt; again, fault);
    }
    Ok(())
}

// 25 is a TLV of release 16, and before that a TV of one octet; 0F is demanding; 72 is a TLV under EPS.
#[test]
fn under_a_pile_of_layers(rt: HostRuntime) -> Result<(), Fail> {
    let rows = [row(0x25, Format::Tlv, 2, 16), row(0x25, Format::Tv, 1, 15)];
    let view = View {
        below: View {
            below: LentRows::lend(&rows)?,
            by: Release(15),
        },
        by: Link::Up,
    };
    let rule = Comprehension {
        below: ProtocolFamily::Eps,
    };
    let reader = Reader {
        catalogue: &view,
        rule: &rule,
    };
    let message = Message {
        octets: &[0x7e, 0x25, 0x02, 0x0f, 0x01, 0x33, 0x72, 0x00, 0x91],
        imperative_end: 1,
    };
    let mut walk = Walk::start(reader, message)?;
    let Some(Token::Known { position, ie }) = walk.step()? else {
        return Err(Fail::new("25 is known"));
    };
    assert_eq!(rt; position, 1);
    assert_eq!(rt; ie.value, [0x02].as_slice());
    let totals = divide(reader, message)?.totals;
    assert_eq!(rt; totals.known.octets, 2);
    assert_eq!(rt; totals.demanding.octets, 3);
    assert_eq!(rt; totals.skippable.ies, 2);
    assert_eq!(rt; totals.skippable.octets, 3);
    Ok(())
}
