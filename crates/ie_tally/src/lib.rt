// Tallies: what the parts of a report, or many reports, come to together.
#![tactic(auto)]

pub mod positions;
pub mod severity;
pub mod skipped;
pub mod tallies;
pub mod tally;
#[cfg(test)]
mod tests;
