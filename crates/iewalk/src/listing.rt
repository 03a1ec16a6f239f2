// What the program prints of a message: a line for each IE, the skipped ones too, and how the message ends.
ghost use Rattle.std.specs.Prelude.{◌≡◌, ◌++◌, map, IfOk, string_bytes, OnOk};
ghost use Rattle.ie_walk.specs.Reading.{reads};
ghost use Rattle.ie_walk.specs.Runs.{left};
ghost use Rattle.ie_walk.specs.Totals.{SumsWithin};
ghost use Rattle.iewalk.specs.Lines.{text, ie_line, closing_line};
ghost use Rattle.iewalk.specs.Listing.{Appends, Listing};

use crate::line::{Line, OutOfMemory, push_line};
use ie_catalogue::catalogue::Catalogue;
use ie_text::HexOctet;
use ie_walk::comprehension::Comprehension;
use ie_walk::divide::{Division, divide};
use ie_walk::faults::{MessageFault, Placed};
use ie_walk::message::Message;
use ie_walk::protocol::ProtocolFamily;
use ie_walk::reader::Reader;
use ie_walk::skip::SkipRule;
use ie_walk::walk::Walk;
use std::alloc::Global;
use ul_nas_transport::{catalogue, imperative_end};

// The most octets that the program takes.
pub const LONGEST_INPUT: usize = 4096;

// No `From`: the sums need their bound.
fn last_line(division: Division) -> Line
    requires { SumsWithin division.totals 65535 }
    ensures { result ≡ closing_line division }
{
    let Division { totals, unfinished } = division;
    match unfinished {
        Some(Placed { thing, place }) => Line::Truncated {
            iei: HexOctet(thing.iei),
            place,
            needed: thing.octets.needed,
            at_hand: thing.octets.at_hand,
        },
        None => Line::End {
            ies: totals.known.ies + totals.skippable.ies + totals.demanding.ies,
            octets: totals.known.octets + totals.skippable.octets + totals.demanding.octets,
        },
    }
}

fn push_ies<C: Catalogue, S: SkipRule>(
    out: &mut String,
    mut walk: Walk<'_, '_, C, S>,
) -> Result<(), OutOfMemory>
    ensures { OnOk result (string_bytes out.new ≡ string_bytes out.old ++ text (map ie_line (left C.Catalogue S.SkipRule walk.entry).tokens)) }
{
    while let Ok(Some(token)) = walk.step() {
        push_line(out, Line::from(token))?;
    }
    Ok(())
}

// The lines of any message under any catalogue and skip rule.
fn push_message<C: Catalogue, S: SkipRule>(
    out: &mut String,
    reader: Reader<'_, C, S>,
    message: Message<'_>,
) -> Result<(), OutOfMemory>
    ensures { OnOk result (Appends (reads C.Catalogue S.SkipRule reader.entry) message.entry.octets.now message.entry.imperative_end (string_bytes out.old) (string_bytes out.new)) }
{
    match (Walk::start(reader, message), divide(reader, message)) {
        (Ok(walk), Ok(division)) => {
            push_ies(out, walk)?;
            push_line(out, last_line(division))
        }
        (Err(fault), _) | (_, Err(fault)) => push_line(out, Line::Refused(fault.number())),
    }
}

// The program's whole output for its input.
pub fn listing(heap: Global, message: &[u8]) -> Result<String, OutOfMemory>
    ensures { IfOk result (λ s. Listing message.now (string_bytes s)) }
{
    let mut out = String::new(heap);
    if message.len() > LONGEST_INPUT {
        push_line(&mut out, Line::Refused(MessageFault::TooLong.number()))?;
        return Ok(out);
    }
    let reader = Reader {
        catalogue: &catalogue(),
        rule: &Comprehension {
            below: ProtocolFamily::FiveGs,
        },
    };
    let message = Message {
        octets: message,
        imperative_end: imperative_end(message),
    };
    push_message(&mut out, reader, message)?;
    Ok(out)
}

#[cfg(test)]
mod tests {
    use super::listing;
    use std::test::Fail;

    #[test]
    fn three_kinds_and_a_cut_tail(rt: HostRuntime) -> Result<(), Fail> {
        let message = [
            0x7e, 0x00, 0x67, 0x02, 0x00, 0x01, 0xaa, 0x59, 0x07, 0x0f, 0x00, 0x7d, 0x00, 0x01,
            0xff, 0x25, 0x02, 0x61,
        ];
        assert_eq!(rt;
            listing(rt.alloc(), &message)?.as_str(),
            "known entry=1 iei=59 at=7 size=2\ndemanding iei=0F at=9 size=2\nskippable iei=7D at=11 size=4\ntruncated iei=25 at=15 needed=4 at_hand=3\n"
        );
        Ok(())
    }

    #[test]
    fn refused(rt: HostRuntime) -> Result<(), Fail> {
        let long = [0x80; 4097];
        assert_eq!(rt; listing(rt.alloc(), &long)?.as_str(), "refused 1\n");
        let short = [0x7e, 0x00, 0x67, 0x01, 0x00];
        assert_eq!(rt; listing(rt.alloc(), &short)?.as_str(), "refused 2\n");
        Ok(())
    }
}
