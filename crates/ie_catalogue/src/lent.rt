// A catalogue over lent rows, of which one that is ill-formed means the absent entry.
ghost use Rattle.std.specs.Prelude.{◌≡◌, ◌≤◌, length, map};
ghost use Rattle.std.specs.List.{slice_get};
ghost use Rattle.ie_catalogue.specs.Entries.{meant};
ghost use Rattle.ie_catalogue.specs.Few.{few_mapped};

use crate::catalogue::Catalogue;
use crate::entry::Entry;
use crate::refusal::LendRefusal;
use crate::row::EntryRow;

#[derive(Clone, Copy)]
pub struct LentRows<'a> {
    rows: &'a [EntryRow],
    ghost few: { length rows.now ≤ 64 },
}

impl<'a> LentRows<'a> {
    // Not at the top: these name the struct, whose ghost field imports what stands there.
    ghost use Rattle.ie_catalogue.specs.Lending.{lending, rows_lent};
    ghost use Rattle.ie_catalogue.specs.Refusals.{answered, lend_refusal};

    // Refusal 6 where there are more than 64 rows.
    pub fn lend(rows: &'a [EntryRow]) -> Result<LentRows<'a>, LendRefusal>
        ensures { answered lend_refusal (rows_lent result) ≡ lending rows.entry }
    {
        if rows.len() <= 64 {
            Ok(LentRows { rows })
        } else {
            Err(LendRefusal::TooMany)
        }
    }
}

// What the row at a position means, if there is one. A function of its own, so that `entry` needs no proof file.
fn entry_at(rows: &[EntryRow], position: usize) -> Option<Entry>
    ensures { result ≡ slice_get (map meant rows.now) position }
{
    Some(Entry::meant(rows.get(position)?))
}

impl Catalogue for LentRows<'_> {
    ghost use Rattle.ie_catalogue.specs.Lending.{lent_entries};

    ghost entries = { lent_entries };

    ghost few = { λ l. few_mapped meant _ l.few };

    fn count(&self) -> usize {
        self.rows.len()
    }

    fn entry(&self, position: usize) -> Option<Entry> {
        entry_at(self.rows, position)
    }
}
