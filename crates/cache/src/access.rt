ghost use Rattle.std.specs.Prelude.{◌≡◌, ◌%◌, true};
ghost use Rattle.std.specs.Option.{option_map};
ghost use Rattle.rules.specs.Cache.{is_size, block_of, offset_of};
ghost use Rattle.cache.specs.Access.{proper_access};

use crate::stretch::Stretch;

/// An access of 1, 2, 4 or 8 bytes at a multiple of as many. It is made only if it also ends within memory.
// Ghost fields, not a model: callers' proofs read them. Clauses name both numbers, as the rules' definitions take them.
#[derive(Clone, Copy)]
pub struct Access {
    pub(crate) address: u32,
    pub(crate) size: u8,
    ghost sized: { is_size size ≡ true },
    ghost aligned: { address % size ≡ 0 },
}

impl Access {
    /// An access to a memory of so many bytes, if it is proper.
    pub fn new(address: u32, size: u8, memory: usize) -> Option<Access>
        ensures { option_map (λ a. (a.address, a.size)) result ≡ proper_access memory address size }
    {
        if !is_size(u32::from(size)) || address % u32::from(size) != 0 {
            return None;
        }
        if address as usize + usize::from(size) > memory {
            return None;
        }
        Some(Access { address, size })
    }

    pub fn block(self) -> u32
        ensures { result ≡ block_of self.address }
    {
        self.address / 16
    }

    /// The bytes of its block that it takes.
    pub(crate) fn stretch(self) -> Stretch
        ensures from { result.from ≡ offset_of self.address }
        ensures size { result.size ≡ self.size }
    {
        Stretch {
            from: (self.address % 16) as usize,
            size: usize::from(self.size),
        }
    }
}

/// A number of bytes that an access or a granule may have.
// By `is_power_of_two`, not `matches!`: the test is one count of bits, and a division by a size can then be a mask.
#[tactic(auto, using(crate::proofs::Sizes::power_is_size))]
pub(crate) fn is_size(n: u32) -> bool
    ensures { result ≡ is_size n }
{
    n <= 8 && n.is_power_of_two()
}
