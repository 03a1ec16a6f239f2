// What a report comes to: how many rows and diagnoses it has, and its tallies.
use ie_tally::tallies::Tallies;

#[derive(Clone, Copy, PartialEq, Eq, Debug)]
pub struct Summary {
    pub rows: usize,
    pub diagnoses: usize,
    pub tallies: Tallies,
}
