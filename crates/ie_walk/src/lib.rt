// How octets divide: the walk over the non-imperative part of a layer 3 message.
#![tactic(auto)]

pub mod comprehension;
mod cut;
pub mod divide;
pub mod faults;
pub mod ie;
pub mod message;
pub mod protocol;
pub mod reader;
pub mod skip;
#[cfg(test)]
mod tests;
pub mod walk;
