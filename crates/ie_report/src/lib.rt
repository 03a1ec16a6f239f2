// What a message says: order rules, rows, diagnoses, and the judging of one IE.
#![tactic(auto)]

mod closing;
mod diagnose;
pub mod diagnosis;
pub mod free;
mod judge;
pub mod listed;
pub mod order;
pub mod ordered;
pub mod refusal;
pub mod row;
pub mod summary;
#[cfg(test)]
mod tests;
mod times;
