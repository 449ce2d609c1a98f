ghost use Rattle.std.specs.Prelude.{◌≡◌};
ghost use Rattle.rules.specs.Meaning.{Meaning, Sound};
ghost use Rattle.rules.specs.Calls.{writing_number, write_answer, bytes_written, read_answer};
ghost use Rattle.rules.specs.declared.count.CountFault.TheVariants.{Cut};

/// The bytes ended within a reading that began at the bit `from`.
#[derive(Clone, Copy, Debug, PartialEq, Eq)]
pub struct BytesEnd {
    pub from: usize,
}

/// Why no count is read. Either case tells the bit at which the count begins.
#[derive(Clone, Copy, Debug, PartialEq, Eq)]
pub enum CountFault {
    Cut(BytesEnd),
    Bad(usize),
}

impl From<BytesEnd> for CountFault {
    ghost from_gives = { λ end r. r ≡ Cut end };

    fn from(end: BytesEnd) -> CountFault {
        CountFault::Cut(end)
    }
}

/// A count that was read, and the place of the bit after it.
#[derive(Clone, Copy, Debug, PartialEq, Eq)]
pub struct Counted {
    pub number: u32,
    pub next: usize,
}

/// Why a count is not written: it is above the greatest number, or its bits would run past the buffer's end.
#[derive(Clone, Copy, Debug, PartialEq, Eq)]
pub enum WriteRefusal {
    AboveTop,
    NoRoom,
}

// The number by which a refusal is told.
impl From<WriteRefusal> for u8 {
    ghost from_gives = { λ refusal r. r ≡ writing_number refusal };

    fn from(refusal: WriteRefusal) -> u8 {
        match refusal {
            WriteRefusal::AboveTop => 6,
            WriteRefusal::NoRoom => 7,
        }
    }
}

/// Three bytes that stand for a code in a trace's header.
pub type CodeName = [u8; 3];

/// A code for counts from 0 to a greatest number. Places are in bits.
// Number, place and buffer stay parameters of their own: the rules' calls take them so, and answer the next place.
pub trait CountCode {
    ghost meaning: { Self → Meaning };

    fn top(&self) -> u32
        ensures { result ≡ (meaning self.now).top };

    fn name(&self) -> CodeName
        ensures { result ≡ (meaning self.now).name };

    /// Writes the number's bits from the place on, and answers the place after them.
    fn write(&self, number: u64, place: usize, buffer: &mut [u8]) -> Result<usize, WriteRefusal>
        ensures answer { result ≡ write_answer (meaning self.now) number place buffer.old }
        ensures bytes { buffer.new ≡ bytes_written (meaning self.now) number place buffer.old };

    /// Reads a number from the place on.
    fn read(&self, place: usize, bytes: &[u8]) -> Result<Counted, CountFault>
        ensures { result ≡ read_answer (meaning self.now) place bytes.now };

    ghost sound: { (c : Self) → Sound (meaning c) };
}
