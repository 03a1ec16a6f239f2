// Worked examples of the definitions that contracts cite.
#![tactic(auto)]

ghost use Rattle.worked_examples.specs.Alikes.{ToldApart, PlacesApart, SameSaid};
ghost use Rattle.worked_examples.specs.Examples.{Stand, FirstCause};

// What the examples say holds; none is a claim about code.
pub fn examples_stand()
    ensures reports { Stand }
    ensures first_cause { FirstCause }
    ensures apart { ToldApart }
    ensures places { PlacesApart }
    ensures said { SameSaid }
{}
