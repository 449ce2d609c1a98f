//! The rules that every layer shares: what count codes and programs mean and owe, and the first-access cache.
#![tactic(auto)]

pub mod cache;
pub mod count;
pub mod program;
