ghost use Rattle.std.specs.Prelude.{◌≡◌, ℕ, ◌%◌, ◌<◌};

use std::marker::Model;

/// The number of one of the core's eight registers.
#[derive(Clone, Copy)]
pub struct Register {
    number: usize,
}

impl Model for Register {
    ghost Value = { ℕ };

    ghost view = { λ r. r.number };

    ghost invariant = { λ r. r.number < 8 };

    ghost inverse = { λ n. record { number = n } };
}

/// The low three bits.
impl From<u32> for Register {
    ghost from_gives = { λ bits r. r ≡ bits % 8 };

    fn from(bits: u32) -> Register {
        Register {
            number: bits as usize % 8,
        }
    }
}

impl Register {
    pub(crate) fn number(self) -> usize
        ensures value { result ≡ self }
        ensures within { result < 8 }
    {
        self.number
    }
}
