ghost use Rattle.std.specs.Prelude.{◌≡◌, length};
ghost use Rattle.rules.specs.Views.{on_ok};
ghost use Rattle.programs.specs.Making.{Makes};
ghost use Rattle.programs.specs.Refusal.{refusal_number};
ghost use Rattle.programs.specs.declared.refusal.ProgramRefusal.TheVariants.{NoMemory};

use std::alloc::{AllocError, Global};

/// The most words or accesses that a program has.
pub const LONGEST: usize = 1024;

/// Why a program is not made.
#[derive(Clone, Copy, PartialEq, Eq)]
pub enum ProgramRefusal {
    TooLong,
    NoMemory(AllocError),
}

impl From<AllocError> for ProgramRefusal {
    ghost from_gives = { λ error refusal. refusal ≡ NoMemory error };

    fn from(error: AllocError) -> ProgramRefusal {
        ProgramRefusal::NoMemory(error)
    }
}

// Want of memory is no refusal by rule and has no number.
impl TryFrom<ProgramRefusal> for u8 {
    type Error = AllocError;

    ghost try_from_gives = { λ refusal number. number ≡ refusal_number refusal };

    fn try_from(refusal: ProgramRefusal) -> Result<u8, AllocError> {
        match refusal {
            ProgramRefusal::TooLong => Ok(2),
            ProgramRefusal::NoMemory(fault) => Err(fault),
        }
    }
}

/// The words or accesses of a program, if they are not too many.
pub(crate) fn copied<T: Copy>(heap: Global, items: &[T]) -> Result<Vec<T>, ProgramRefusal>
    ensures { Makes (length items.now) items.now (on_ok (λ v. v.items) result) }
{
    if items.len() > LONGEST {
        return Err(ProgramRefusal::TooLong);
    }
    Ok(Vec::from_slice(heap, items)?)
}
