ghost use Rattle.std.specs.Prelude.{◌≡◌, ◌≤◌, ℕ, true, ◌&&◌, nat_le, nat_lt};
ghost use Rattle.std.specs.Option.{option_map};
ghost use Rattle.rules.specs.Cache.{are_settings, region_from, region_size, within};
ghost use Rattle.cache.specs.Access.{proper_settings};

use crate::access::{Access, is_size};
use crate::stretch::Stretch;
use rules::cache::Settings;
use std::ops::Range;

/// Settings that a cache can have: 1, 2, 4, 8 or 16 sets of at most 1, 2 or 4 lines, and granules of 1, 2, 4 or 8 bytes.
// A ghost field, not a model: callers' proofs read it.
#[derive(Clone, Copy)]
pub struct Shape {
    settings: Settings,
    ghost proper: { are_settings settings ≡ true },
}

impl Shape {
    pub fn new(settings: Settings) -> Option<Shape>
        ensures { option_map (λ s. s.settings) result ≡ proper_settings settings }
    {
        if !are_settings(settings) {
            return None;
        }
        Some(Shape { settings })
    }

    pub(crate) fn settings(self) -> Settings
        ensures { result ≡ self.settings }
    {
        self.settings
    }

    /// The aligned stretch of max(size, granule) bytes that holds an access.
    pub(crate) fn region(self, access: Access) -> Stretch
        ensures from { result.from ≡ region_from self.settings access.address access.size }
        ensures size { result.size ≡ region_size self.settings access.size }
    {
        let size = self.region_size(access);
        let offset = access.stretch().from;
        Stretch {
            from: offset / size * size,
            size,
        }
    }

    fn region_size(self, access: Access) -> usize
        ensures { result ≡ region_size self.settings access.size }
    {
        u32::from(access.size).max(self.settings.granule) as usize
    }

    /// The granules that lie whole in a stretch.
    pub(crate) fn granules(self, part: Stretch) -> Range<usize>
        ensures whole { (q : ℕ) → within self.settings.granule part.from part.size q
            ≡ (nat_le result.start q && nat_lt q result.end) }
        ensures order { result.start ≤ result.end }
        ensures most { result.end ≤ 16 }
    {
        let granule = self.settings.granule as usize;
        let start = part.from.div_ceil(granule);
        let end = (part.from + part.size) / granule;
        start..end.max(start)
    }
}

fn are_settings(k: Settings) -> bool
    ensures { result ≡ are_settings k }
{
    matches!(k.sets, 1 | 2 | 4 | 8 | 16) && matches!(k.ways, 1 | 2 | 4) && is_size(k.granule)
}
