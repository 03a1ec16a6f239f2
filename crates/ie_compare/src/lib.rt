// When two messages say the same.
#![tactic(auto)]

ghost use Rattle.ie_compare.specs.Laws.{Compares};

// The comparison law, until a call that compares two messages carries it.
pub fn comparison_law()
    ensures { Compares }
{}
