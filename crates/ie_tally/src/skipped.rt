// How many IEs were skipped, and how many octets they had.
ghost use Rattle.std.specs.Prelude.{◌≡◌, ◌+◌, min};
ghost use Rattle.ie_tally.specs.Skips.{no_skip, sums};
ghost use Rattle.ie_tally.specs.Joining.{skipped_laws};

use crate::tally::Tally;

#[derive(Clone, Copy, PartialEq, Eq, Default, Debug)]
pub struct Skipped {
    pub ies: u32,
    pub octets: u32,
}

// Sums that saturate at 4,294,967,295.
impl Tally for Skipped {
    ghost neutral = { no_skip };

    ghost joined = { sums };

    ghost laws = { skipped_laws };

    fn none() -> Skipped {
        Self::default()
    }

    fn join(self, other: Skipped) -> Skipped
        ensures value { result ≡ sums self other }
        ensures ies_value { result.ies ≡ min (self.ies + other.ies) 4294967295 }
        ensures octets_value { result.octets ≡ min (self.octets + other.octets) 4294967295 }
    {
        Skipped {
            ies: self.ies.saturating_add(other.ies),
            octets: self.octets.saturating_add(other.octets),
        }
    }
}
