ghost use Rattle.std.specs.Prelude.{◌≡◌, ◌+◌, ◌≤◌};

use std::ops::Range;

/// Up to 8 bytes of a block, from a place in it on.
// Clauses name both numbers, as the rules' definitions take them.
#[derive(Clone, Copy)]
pub(crate) struct Stretch {
    pub(crate) from: usize,
    pub(crate) size: usize,
    ghost inside: { from + size ≤ 16 },
    ghost few: { size ≤ 8 },
}

impl Stretch {
    pub(crate) fn range(self) -> Range<usize>
        ensures start { result.start ≡ self.from }
        ensures end { result.end ≡ self.from + self.size }
    {
        self.from..self.from + self.size
    }
}
