ghost use Rattle.std.specs.Prelude.{◌≡◌, ◌≢◌, ◌-◌, ◌<◌, ◌≤◌, [], ◌∷◌, length, take, slice_index};
ghost use Rattle.std.specs.List.{All, AllPairs};

/// The order of use of a set's lines, which lie in four ways. The first `used` of the order are the ways in use, latest
/// use first; the others are free.
// Always four ways, and no `Vec`: memory is fixed, and no call after making can fail.
#[derive(Clone, Copy)]
pub(crate) struct Recency {
    order: [u8; 4],
    used: u8,
    ghost four: { length order ≡ 4 },
    ghost few: { used ≤ 4 },
    ghost ways: { All (λ way. way < 4) order },
    ghost apart: { AllPairs ◌≢◌ order },
}

impl Recency {
    ghost use Rattle.cache.specs.Recency.{recent, to_front};

    pub(crate) fn new() -> Recency
        ensures { recent result ≡ [] }
    {
        Recency {
            order: [0, 1, 2, 3],
            used: 0,
        }
    }

    pub(crate) fn used(&self) -> usize
        ensures { result ≡ length (recent self.now) }
    {
        usize::from(self.used)
    }

    /// The way at a place of the order of use.
    pub(crate) fn way(&self, place: usize) -> usize
        requires { place < length (recent self.now) }
        ensures { result ≡ slice_index (recent self.now) place }
    {
        usize::from(self.order[place])
    }

    pub(crate) fn promote(&mut self, place: usize)
        requires { place < length (recent self.old) }
        ensures { recent self.new ≡ to_front place (recent self.old) }
    {
        // Spelled out, not by `rotate_right` on a part of it: that is a call, to move two or three bytes.
        let [a, b, c, d] = self.order;
        self.order = match place {
            0 => [a, b, c, d],
            1 => [b, a, c, d],
            2 => [c, a, b, d],
            _ => [d, a, b, c],
        };
    }

    /// A way for a new line: a free one, or the last where all `ways` are in use.
    pub(crate) fn enter(&mut self, ways: u32) -> usize
        requires some { 1 ≤ ways }
        requires most { ways ≤ 4 }
        requires room { length (recent self.old) ≤ ways }
        ensures { recent self.new ≡ result ∷ take (ways - 1) (recent self.old) }
    {
        let place = self.used.min(ways as u8 - 1);
        self.used = place + 1;
        self.promote(usize::from(place));
        self.way(0)
    }
}
