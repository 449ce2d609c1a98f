ghost use Rattle.std.specs.Prelude.{◌≡◌, ◌≤◌};
ghost use Rattle.rules.specs.Views.{on_ok};
ghost use Rattle.codes.specs.Fixed.{fixed_meaning, fixed_made};
ghost use Rattle.codes.specs.FixedLaws.{fixed_sound};

use crate::reader::BitReader;
use crate::refusal::MakeRefusal;
use crate::writer::write_bits;
use rules::count::{CodeName, CountCode, CountFault, Counted, WriteRefusal};

/// Every count in `width` bits.
// Ghost fields, not a model: the laws below read them from the value.
#[derive(Clone, Copy)]
pub struct Fixed {
    width: u32,
    ghost least: { 4 ≤ width },
    ghost most: { width ≤ 32 },
}

impl Fixed {
    pub fn new(width: u32) -> Result<Fixed, MakeRefusal>
        ensures { on_ok (λ c. c.width) result ≡ fixed_made width }
    {
        if !(4..=32).contains(&width) {
            return Err(MakeRefusal::OutOfRange);
        }
        Ok(Fixed { width })
    }
}

impl CountCode for Fixed {
    ghost meaning = { λ c. fixed_meaning c.width };

    ghost sound = { λ c. fixed_sound c.width c.least c.most };

    fn top(&self) -> u32 {
        ((1u64 << self.width) - 1) as u32
    }

    fn name(&self) -> CodeName {
        [2, self.width as u8, 0]
    }

    fn write(&self, number: u64, place: usize, buffer: &mut [u8]) -> Result<usize, WriteRefusal> {
        if number > u64::from(self.top()) {
            return Err(WriteRefusal::AboveTop);
        }
        write_bits(number, self.width, place, buffer)
    }

    fn read(&self, place: usize, bytes: &[u8]) -> Result<Counted, CountFault> {
        let mut reader = BitReader::new(bytes, place);
        let number = reader.take(self.width)? as u32;
        Ok(Counted {
            number,
            next: reader.place(),
        })
    }
}
