// A set of positions 0 to 63: the entries taken, and the positions that an order rule admitted.
ghost use Rattle.std.specs.Prelude.{◌≡◌};
ghost use Rattle.ie_tally.specs.Sets.{has, with_position, has_above};
ghost use Rattle.ie_tally.specs.Unions.{no_positions, union};
ghost use Rattle.ie_tally.specs.Joining.{positions_laws};

use crate::tally::Tally;

// One bit for each: a set of the library would ask for memory. Each method tests the bound of 63 that the rules set,
// which no method of a word has.
#[derive(Clone, Copy, PartialEq, Eq, Default, Debug)]
pub struct Positions {
    bits: u64,
}

impl Positions {
    pub fn has(self, position: usize) -> bool
        ensures { result ≡ has self.bits position }
    {
        position < 64 && (self.bits >> position) % 2 == 1
    }

    // The set with one position more; one above 63 is left out.
    pub fn with(self, position: usize) -> Positions
        ensures { result.bits ≡ with_position self.bits position }
    {
        if position < 64 {
            Positions {
                bits: self.bits | 1 << position,
            }
        } else {
            self
        }
    }

    // Whether the set has a position greater than this one: the bits from its own on are more than that one.
    #[tactic(auto, using(crate::proofs::Above::above_is, crate::proofs::Above::none_above))]
    pub fn has_above(self, position: usize) -> bool
        ensures { result ≡ has_above self.bits position }
    {
        position < 64 && self.bits >> position > 1
    }
}

// The union.
impl Tally for Positions {
    ghost neutral = { no_positions };

    ghost joined = { union };

    ghost laws = { positions_laws };

    fn none() -> Positions {
        Self::default()
    }

    fn join(self, other: Positions) -> Positions {
        Positions {
            bits: self.bits | other.bits,
        }
    }
}
