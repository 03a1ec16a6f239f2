// What a tally is, and the one fold that joins them.
ghost use Rattle.std.specs.Prelude.{◌≡◌, List, ◌++◌};
ghost use Rattle.ie_tally.specs.Totals.{total};
ghost use Rattle.ie_tally.specs.Parted.{Laws};

// Joining is associative, and has a neutral element.
pub trait Tally: Sized {
    ghost neutral: { Self };

    ghost joined: { Self → Self → Self };

    // No body here, though each kind's is its default: then every kind would owe `Default` and one law more.
    fn none() -> Self
        ensures { result ≡ neutral };

    fn join(self, other: Self) -> Self
        ensures { result ≡ joined self other };

    ghost laws: { Laws neutral joined };
}

// One after the other, each read where it is lent: a copy handed on is loaded whole and taken apart again. A function of
// its own, so that `fold` needs no proof file.
fn fold_all<T: Tally + Copy>(tallies: &[T]) -> T
    ensures { result ≡ total T.neutral T.joined tallies.now }
{
    tallies.iter().fold(T::none(), |sum, one| sum.join(*one))
}

// The tally of all; wherever the list is parted, it is the join of the tallies of both parts.
#[tactic(auto, using(crate::proofs::Folds::total_in_parts))]
pub fn fold<T: Tally + Copy>(tallies: &[T]) -> T
    ensures value { result ≡ total T.neutral T.joined tallies.now }
    ensures parts { (xs ys : List T) → xs ++ ys ≡ tallies.now → result ≡ T.joined (total T.neutral T.joined xs) (total T.neutral T.joined ys) }
{
    fold_all(tallies)
}
