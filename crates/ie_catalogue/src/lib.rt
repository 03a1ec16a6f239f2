// What is known: catalogues of information elements.
#![tactic(auto)]

mod bounds;
pub mod catalogue;
pub mod checked;
pub mod direction;
pub mod entry;
pub mod lent;
pub mod refusal;
pub mod release;
pub mod row;
pub mod search;
pub mod size;
#[cfg(test)]
mod tests;
pub mod view;
