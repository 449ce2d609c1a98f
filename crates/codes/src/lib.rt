//! Count codes over byte slices, with the bit reader and the bit writer that they are made of.
#![tactic(auto)]

ghost use Rattle.std.specs.Prelude.{◌≡◌, length};
ghost use Rattle.codes.specs.Examples.{examples, WorkedExamples};

pub mod chunked;
pub mod fixed;
pub mod reader;
pub mod refusal;
pub mod series;
#[cfg(test)]
mod tests;
pub mod writer;

/// How many worked examples of the chunked code are proved.
// A promise by itself: no other function is about them.
pub fn worked_examples() -> usize
    ensures hold { WorkedExamples }
    ensures many { result ≡ length examples }
{
    5
}
