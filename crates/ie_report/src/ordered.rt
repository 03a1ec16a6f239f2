// An order rule by its decision alone: the set of positions is kept once, for all of them.
ghost use Rattle.std.specs.Prelude.{◌≡◌, ℕ, Bool};
ghost use Rattle.ie_tally.specs.Unions.{no_positions};

use crate::order::OrderRule;
use ie_tally::positions::Positions;
use ie_tally::tally::Tally;

// Its meaning is the order rule's function of set and position; a question changes nothing.
pub trait Decision {
    ghost admits: { Self → ℕ → ℕ → Bool };

    // Whether the position may follow those admitted. A rule puts no question for one above 63.
    fn admits(&self, admitted: Positions, position: usize) -> bool
        ensures { result ≡ admits self.now admitted.bits position };
}

#[derive(Drop)]
pub struct Ordered<D> {
    decision: D,
    admitted: Positions,
}

impl<D: Decision> Ordered<D> {
    pub fn new(decision: D) -> Ordered<D>
        ensures decision { result.decision ≡ decision }
        ensures none { result.admitted ≡ no_positions }
    {
        Ordered {
            decision,
            admitted: Positions::none(),
        }
    }
}

impl<D: Decision> OrderRule for Ordered<D> {
    ghost admitted = { λ rule. rule.admitted.bits };

    ghost admits = { λ rule. D.Decision.admits rule.decision };

    fn reset(&mut self) {
        self.admitted = Positions::none();
    }

    // The bound of 63 is the rules'; a decision need not know it.
    fn offer(&mut self, position: usize) -> bool {
        if position >= 64 || !self.decision.admits(self.admitted, position) {
            return false;
        }
        self.admitted = self.admitted.with(position);
        true
    }
}
