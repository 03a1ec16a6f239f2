// Which positions may follow which.
ghost use Rattle.std.specs.Prelude.{◌≡◌, ℕ, Bool};
ghost use Rattle.ie_report.specs.Orders.{lets_in, admitted_after, SameOrder};

// Its meaning is the set of positions admitted since the reset, and a function of set and position that decides.
// The function belongs to the value, so that a rule may carry a table; neither a reset nor an offer changes it.
pub trait OrderRule {
    ghost admitted: { Self → ℕ };

    ghost admits: { Self → ℕ → ℕ → Bool };

    fn reset(&mut self)
        ensures after { admitted self.new ≡ 0 }
        ensures same { SameOrder (admits self.new) (admits self.old) };

    // Whether the position is in, which admits it; a position above 63 is out.
    fn offer(&mut self, position: usize) -> bool
        ensures value { result ≡ lets_in (admits self.old) (admitted self.old) position }
        ensures after { admitted self.new ≡ admitted_after (admits self.old) (admitted self.old) position }
        ensures same { SameOrder (admits self.new) (admits self.old) };
}
