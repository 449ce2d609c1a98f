//! The first-access cache, over a table of lines.
#![tactic(auto)]

pub mod access;
mod line;
mod recency;
pub mod sets;
pub mod shape;
mod stretch;
mod table;
#[cfg(test)]
mod tests;
