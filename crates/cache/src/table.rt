ghost use Rattle.std.specs.Prelude.{◌≡◌, ◌<◌, vec_len, slice_index_or};
ghost use Rattle.std.specs.Borrow.{sem};

use rules::cache::Line;

/// The lines of all sets: way w of the set s lies at 4 s + w.
// A plain table with the orders of use beside it, not a list of sets: that one line of it is lent is a rule of the
// project, and what an order is made of is known to `Recency` alone.
#[derive(Drop)]
pub(crate) struct Table {
    pub(crate) lines: Vec<Line>,
}

impl Table {
    ghost use Rattle.cache.specs.Table.{LendsLine};

    pub(crate) fn line(&self, slot: usize) -> &Line
        requires { slot < vec_len self.now.lines }
        ensures { result.now ≡ slice_index_or self.now.lines.items slot result.now }
    {
        &self.lines[slot]
    }

    /// Lends one line to be changed.
    pub(crate) fn line_mut(&mut self, slot: usize) -> &mut Line
        requires { slot < vec_len self.old.lines }
        ensures* follows { sem 𝓛 (LendsLine self.entry slot result) }
        ensures value { result.now ≡ slice_index_or self.old.lines.items slot result.now }
    {
        &mut self.lines[slot]
    }
}
