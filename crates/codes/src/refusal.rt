ghost use Rattle.std.specs.Prelude.{◌≡◌};
ghost use Rattle.codes.specs.Refusal.{making_number};

/// Why a code is not made.
#[derive(Clone, Copy, Debug, PartialEq, Eq)]
pub enum MakeRefusal {
    OutOfRange,
}

// The number by which a refusal is told.
impl From<MakeRefusal> for u8 {
    ghost from_gives = { λ refusal r. r ≡ making_number refusal };

    fn from(refusal: MakeRefusal) -> u8 {
        match refusal {
            MakeRefusal::OutOfRange => 1,
        }
    }
}
