//! Programs that recorder and player can run: a list of accesses, and a small core.
#![tactic(auto)]

mod instruction;
pub mod list;
pub mod processor;
pub mod refusal;
mod register;
#[cfg(test)]
mod tests;
