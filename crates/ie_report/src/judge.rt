// What becomes of one IE, after those before it.
ghost use Rattle.std.specs.Prelude.{◌≡◌, ◌≤◌, length};
ghost use Rattle.std.specs.Option.{option_to_list};
ghost use Rattle.ie_walk.specs.Walks.{part_in, found_in, Inside};
ghost use Rattle.ie_report.specs.Judging.{entry_in, format_in, fresh, met, SameRule, kind_of, after as after_by};
ghost use Rattle.ie_report.specs.Rows.{half_by, row_by, judged_row, judged_state, skip_of};

use crate::order::OrderRule;
use crate::row::{Row, RowKind};
use crate::times::TimesTaken;
use ie_catalogue::catalogue::Catalogue;
use ie_catalogue::entry::Entry;
use ie_catalogue::row::Format;
use ie_catalogue::size::Size;
use ie_tally::skipped::Skipped;
use ie_tally::tally::Tally;
use ie_walk::ie::{Ie, Token};

// The format of an entry, if it has one.
pub(crate) fn format_of(entry: Option<Entry>) -> Option<Format>
    ensures { result ≡ format_in (entry_in entry) }
{
    entry?.row().map(|row| row.format)
}

// The lower half octet of format 1. By the format alone, since an unknown IE has no row.
fn half_by(format: Option<Format>, iei: u8) -> u8
    ensures { result ≡ half_by format iei }
{
    match format {
        Some(Format::TvHalf) => iei % 16,
        _ => 0,
    }
}

fn row_by(kind: RowKind, position: usize, half: u8, ie: Ie<'_>) -> Row
    requires { Inside (part_in ie) }
    ensures { result ≡ row_by kind position half (part_in ie.entry) }
{
    Row {
        kind,
        position,
        iei: ie.iei,
        place: ie.place,
        size: ie.whole.len(),
        value_place: ie.place + ie.whole.len().saturating_sub(ie.value.len()),
        value_length: ie.value.len(),
        half,
    }
}

// What was met so far: the positions that the order rule admitted, and how often each entry was taken.
#[derive(Drop)]
pub struct Met<'o, O> {
    pub(crate) order: &'o mut O,
    times: TimesTaken,
}

impl<'o, O: OrderRule> Met<'o, O> {
    // Nothing yet: the order rule is reset.
    pub(crate) fn begin(order: &'o mut O) -> Met<'o, O>
        ensures value { met O.OrderRule result ≡ fresh }
        ensures same { SameRule O.OrderRule result.order order.entry }
    {
        order.reset();
        Met {
            order,
            times: TimesTaken::none(),
        }
    }

    // First the limit, then the order rule, then the size. No `Designated`: the entry may be missing.
    fn judge_known(&mut self, entry: Option<Entry>, position: usize, length: usize) -> RowKind
        ensures value { result ≡ kind_of (O.OrderRule.admits self.old.order.now) (entry_in entry) (met O.OrderRule self.old) position length }
        ensures after { met O.OrderRule self.new ≡ after_by result position (met O.OrderRule self.old) }
        ensures same { SameRule O.OrderRule self.new.order self.old.order }
    {
        // One test after the other, as the rules have them: no chain says their order as plainly.
        let Some(known) = entry else {
            return RowKind::Surplus;
        };
        if self.times.of(position) >= known.limit() {
            return RowKind::Surplus;
        }
        if !self.order.offer(position) {
            return RowKind::OutOfSequence;
        }
        match known.size_test(length) {
            Size::Fitting => {
                self.times.add(position);
                RowKind::Taken
            }
            _ => RowKind::IllSized,
        }
    }

    // The row of an IE; a skippable one has none.
    pub(crate) fn judge<C: Catalogue>(&mut self, catalogue: &C, token: Token<'_>) -> Option<Row>
        requires { Inside (found_in token).part }
        ensures value { option_to_list result ≡ judged_row (C.Catalogue.entries catalogue.now) (O.OrderRule.admits self.old.order.now) (met O.OrderRule self.old) (found_in token.entry) }
        ensures after { met O.OrderRule self.new ≡ judged_state (C.Catalogue.entries catalogue.now) (O.OrderRule.admits self.old.order.now) (met O.OrderRule self.old) (found_in token.entry) }
        ensures same { SameRule O.OrderRule self.new.order self.old.order }
    {
        match token {
            Token::Known { position, ie } => {
                let entry = catalogue.entry(position);
                let kind = self.judge_known(entry, position, ie.value.len());
                let half = half_by(format_of(entry), ie.iei);
                Some(row_by(kind, position, half, ie))
            }
            Token::Skippable(_) => None,
            // 64 is a row's number for no position.
            Token::Demanding(ie) => Some(row_by(RowKind::UnknownDemanding, 64, 0, ie)),
        }
    }
}

// What is skipped with an IE: it, if it is skippable.
pub(crate) fn skipped(token: Token<'_>) -> Skipped
    requires { length (found_in token).part.whole ≤ 65535 }
    ensures { result ≡ skip_of (found_in token.entry) }
{
    match token {
        Token::Skippable(ie) => Skipped {
            ies: 1,
            octets: ie.whole.len() as u32,
        },
        _ => Skipped::none(),
    }
}
