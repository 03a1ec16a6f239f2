// Order rules of other makers, and one message judged IE by IE.
ghost use Rattle.std.specs.Prelude.{◌≡◌, false, slice_index};
ghost use Rattle.ie_report.specs.Ranks.{by_rank, outranks};

use crate::closing::Closing;
use crate::diagnose::{diagnose, severity};
use crate::diagnosis::DiagnosisKind;
use crate::free::Free;
use crate::judge::{Met, skipped};
use crate::listed::Listed;
use crate::order::OrderRule;
use crate::ordered::{Decision, Ordered};
use crate::refusal::ReportRefusal;
use crate::row::RowKind;
use ie_catalogue::catalogue::Catalogue;
use ie_catalogue::lent::LentRows;
use ie_catalogue::row::{Direction, EntryRow, Format, Presence, Test};
use ie_tally::positions::Positions;
use ie_tally::severity::Severity;
use ie_walk::comprehension::Comprehension;
use ie_walk::faults::MessageFault;
use ie_walk::ie::{Ie, Token};
use ie_walk::protocol::ProtocolFamily;
use ie_walk::reader::Reader;
use std::test::Fail;

// Every position has a rank in a lent table, 0 beyond it; none may follow one of a greater rank.
#[derive(Clone, Copy)]
struct Ranked<'t> {
    ranks: &'t [u8],
}

fn rank(ranks: &[u8], position: usize) -> u8
    ensures { result ≡ slice_index ranks.now position }
{
    ranks.get(position).copied().unwrap_or_default()
}

fn outranked(ranks: &[u8], admitted: Positions, position: usize) -> bool
    ensures { result ≡ outranks ranks.now admitted.bits position }
{
    (0..64).any(|other| admitted.has(other) && rank(ranks, position) < rank(ranks, other))
}

impl Decision for Ranked<'_> {
    ghost admits = { λ rule. by_rank rule.ranks.now };

    fn admits(&self, admitted: Positions, position: usize) -> bool {
        !outranked(self.ranks, admitted, position)
    }
}

// Nothing is ever in.
#[derive(Clone, Copy)]
struct Closed;

impl Decision for Closed {
    ghost admits = { λ _ _ _. false };

    fn admits(&self, _admitted: Positions, _position: usize) -> bool {
        false
    }
}

// A rule as a layer over another. How often a position is offered is no part of a rule's meaning, and is counted here.
#[derive(Drop)]
struct Counting<O> {
    below: O,
    offers: u8,
}

impl<O> Counting<O> {
    fn over(below: O) -> Counting<O> {
        Counting { below, offers: 0 }
    }
}

impl<O: OrderRule> OrderRule for Counting<O> {
    ghost admitted = { λ rule. O.OrderRule.admitted rule.below };

    ghost admits = { λ rule. O.OrderRule.admits rule.below };

    fn reset(&mut self) {
        self.below.reset();
    }

    fn offer(&mut self, position: usize) -> bool {
        self.offers = self.offers.saturating_add(1);
        self.below.offer(position)
    }
}

fn offered<O: OrderRule>(rule: &mut O, positions: &[usize], last: usize) -> bool {
    rule.reset();
    for position in positions {
        let _ = rule.offer(*position);
    }
    rule.offer(last)
}

#[test]
fn order_rules(rt: HostRuntime) {
    let mut ranked = Ordered::new(Ranked { ranks: &[3, 1, 2] });
    assert!(rt; offered(&mut ranked, &[1, 2], 0));
    assert!(rt; !offered(&mut ranked, &[2], 1));
    assert!(rt; !offered(&mut ranked, &[2], 63));
    assert!(rt; offered(&mut ranked, &[64], 63));
    assert!(rt; !offered(&mut Ordered::new(Closed), &[], 0));
    assert!(rt; offered(&mut Ordered::new(Free), &[63], 0));
    assert!(rt; !offered(&mut Ordered::new(Free), &[], 64));
    assert!(rt; offered(&mut Ordered::new(Listed), &[0, 5], 5));
    assert!(rt; !offered(&mut Ordered::new(Listed), &[63], 62));
    assert!(rt; !offered(&mut Ordered::new(Listed), &[], 64));
}

fn row(iei: u8, presence: Presence) -> EntryRow {
    EntryRow {
        iei,
        format: Format::Tlv,
        least: 1,
        greatest: 2,
        presence,
        ..EntryRow::OPTIONAL
    }
}

fn rows() -> [EntryRow; 2] {
    [
        row(0x05, Presence::Mandatory),
        row(0x27, Presence::Optional),
    ]
}

const OPTIONAL: Token<'static> = Token::Known {
    position: 1,
    ie: Ie {
        iei: 0x27,
        place: 1,
        whole: &[0x27, 1, 0x22],
        value: &[0x22],
    },
};

const MANDATORY: Token<'static> = Token::Known {
    position: 0,
    ie: Ie {
        iei: 0x05,
        place: 4,
        whole: &[0x05, 1, 0x44],
        value: &[0x44],
    },
};

const UNKNOWN: Ie<'static> = Ie {
    iei: 0x0f,
    place: 7,
    whole: &[0x0f, 0],
    value: &[],
};

// In the listed order: taken, out of sequence, and 0 is missing in the end.
#[test]
fn judged_in_turn(rt: HostRuntime) -> Result<(), Fail> {
    let rows = rows();
    let catalogue = LentRows::lend(&rows)?;
    let reader = Reader {
        catalogue: &catalogue,
        rule: &Comprehension {
            below: ProtocolFamily::FiveGs,
        },
    };
    let mut order = Ordered::new(Listed);
    let mut met = Met::begin(&mut order);
    let first = met.judge(&catalogue, OPTIONAL).ok_or("a row")?;
    assert_eq!(rt; first.kind, RowKind::Taken);
    assert_eq!(rt; first.value(&[0, 0x27, 1, 0x22, 0x05]), [0x22].as_slice());
    assert!(rt; first.value(&[0, 0x27]).is_empty());
    let second = met.judge(&catalogue, MANDATORY).ok_or("a row")?;
    assert_eq!(rt; second.kind.number(), 3);
    let diagnosis = diagnose(reader, &second).ok_or("0F and less are demanding")?;
    assert_eq!(rt; diagnosis.place, 4);
    assert_eq!(rt; diagnosis.thing.kind.number(), 2);
    assert_eq!(rt; severity(&catalogue, &diagnosis.thing), Severity::Mandatory);
    let entry = catalogue.entry(0).ok_or("the position is there")?;
    let closing = Closing {
        imperative: &[0],
        taken: first.taken(),
    };
    let missing = closing.close(&entry, 0).ok_or("0 is not taken")?;
    assert_eq!(rt; missing.thing.kind, DiagnosisKind::MandatoryMissing);
    Ok(())
}

// A surplus, a demanding and a skippable IE are not offered to the order rule, any other once.
#[test]
fn offered_once(rt: HostRuntime) -> Result<(), Fail> {
    let rows = rows();
    let catalogue = LentRows::lend(&rows)?;
    let mut order = Counting::over(Ordered::new(Free));
    let mut met = Met::begin(&mut order);
    let _ = met.judge(&catalogue, OPTIONAL);
    assert_eq!(rt; met.order.offers, 1);
    let _ = met.judge(&catalogue, OPTIONAL);
    let _ = met.judge(&catalogue, Token::Demanding(UNKNOWN));
    let _ = met.judge(&catalogue, Token::Skippable(UNKNOWN));
    assert_eq!(rt; met.order.offers, 1);
    let _ = met.judge(&catalogue, MANDATORY);
    assert_eq!(rt; met.order.offers, 2);
    let mut closed = Counting::over(Ordered::new(Closed));
    let _ = Met::begin(&mut closed).judge(&catalogue, OPTIONAL);
    assert_eq!(rt; closed.offers, 1);
    assert_eq!(rt; skipped(Token::Skippable(UNKNOWN)).octets, 2);
    assert_eq!(rt; skipped(Token::Demanding(UNKNOWN)).octets, 0);
    Ok(())
}

#[test]
fn refusals(rt: HostRuntime) {
    assert_eq!(rt;
        ReportRefusal::from(MessageFault::ImperativeEndBeyond).number(),
        2
    );
    assert_eq!(rt; ReportRefusal::RowPlaces.number(), 4);
    assert_eq!(rt; ReportRefusal::DiagnosisPlaces.number(), 5);
}
