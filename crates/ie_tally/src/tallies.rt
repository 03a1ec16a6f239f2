// The three tallies of a report, and of many reports.
ghost use Rattle.std.specs.Prelude.{◌≡◌};
ghost use Rattle.ie_tally.specs.Totals.{total};
ghost use Rattle.ie_tally.specs.Tallies.{no_tallies, each_joined};
ghost use Rattle.ie_tally.specs.Joining.{tallies_laws};

use crate::positions::Positions;
use crate::severity::Severity;
use crate::skipped::Skipped;
use crate::tally::{Tally, fold};

#[derive(Clone, Copy, PartialEq, Eq, Default, Debug)]
pub struct Tallies {
    pub severity: Severity,
    pub taken: Positions,
    pub skipped: Skipped,
}

// Each of the three by the one fold. A function of its own, so that `join` needs no proof file.
fn join_each(one: Tallies, other: Tallies) -> Tallies
    ensures { result ≡ each_joined one other }
{
    Tallies {
        severity: fold(&[one.severity, other.severity]),
        taken: fold(&[one.taken, other.taken]),
        skipped: fold(&[one.skipped, other.skipped]),
    }
}

impl Tally for Tallies {
    ghost neutral = { no_tallies };

    ghost joined = { each_joined };

    ghost laws = { tallies_laws };

    fn none() -> Tallies {
        Self::default()
    }

    fn join(self, other: Tallies) -> Tallies {
        join_each(self, other)
    }
}

// What many reports come to: the greatest severity, every entry taken, all that was skipped.
pub fn tally_reports(reports: &[Tallies]) -> Tallies
    ensures { result ≡ total no_tallies each_joined reports.now }
{
    fold(reports)
}
