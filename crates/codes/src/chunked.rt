ghost use Rattle.std.specs.Prelude.{◌≡◌, ◌+◌, ◌%◌, ◌^◌, ◌<◌, ◌≤◌, Bool, List, [], ◌∷◌, ◌++◌, length};
ghost use Rattle.rules.specs.Bits.{low_bits, value_of};
ghost use Rattle.rules.specs.Views.{on_ok};
ghost use Rattle.codes.specs.Chunked.{chunked_meaning, chunked_made, groups, more};
ghost use Rattle.codes.specs.Refusal.{between};
ghost use Rattle.codes.specs.ChunkedLaws.{chunked_sound};
ghost use Rattle.codes.specs.Spelled.{word_back, size_back};

use crate::reader::BitReader;
use crate::refusal::MakeRefusal;
use crate::writer::write_bits;
use rules::count::{CodeName, CountCode, CountFault, Counted, WriteRefusal};
use std::marker::Model;

/// Counts in groups of bits: one of `first` bits, and then ones of `later` bits.
// Ghost fields, not a model: the laws below read them from the value.
#[derive(Clone, Copy)]
pub struct Chunked {
    first: u32,
    later: u32,
    ghost first_least: { 1 ≤ first },
    ghost first_most: { first ≤ 6 },
    ghost later_least: { 1 ≤ later },
    ghost later_most: { later ≤ 6 },
}

impl Chunked {
    pub fn new(first: u32, later: u32) -> Result<Chunked, MakeRefusal>
        ensures { on_ok (λ c. (c.first, c.later)) result ≡ chunked_made first later }
    {
        if !in_range(first) || !in_range(later) {
            return Err(MakeRefusal::OutOfRange);
        }
        Ok(Chunked { first, later })
    }
}

fn in_range(length: u32) -> bool
    ensures { result ≡ between 1 6 length }
{
    (1..=6).contains(&length)
}

// Up to 64 bits, lowest first, seen as a list. A word and a size, since a code's calls take no heap.
#[derive(Clone, Copy)]
struct Spelled {
    word: u64,
    size: u32,
}

impl Model for Spelled {
    ghost Value = { List Bool };

    ghost view = { λ s. low_bits s.size s.word };

    ghost invariant = { λ s. s.word < 2 ^ s.size };

    ghost inverse = { λ bits. record { word = value_of bits; size = length bits } };

    ghost inverse_ok = { λ s below i. record {
      word = word_back s.size s.word below i;
      size = size_back s.size s.word i;
    } };
}

impl Spelled {
    // These bits, and then a number's lowest `width`, with a connect bit above them.
    fn then(self, number: u64, width: u32) -> Spelled
        requires narrow { width ≤ 6 }
        requires fits { length self + width < 64 }
        ensures { result ≡ self ++ (low_bits width number ++ more width number ∷ []) }
    {
        let connect = number >> width > 0;
        let group = lowest(number, width) + (u64::from(connect) << width);
        Spelled {
            word: self.word + (group << self.size),
            size: self.size + width + 1,
        }
    }
}

// The lowest `width` bits of a word.
fn lowest(word: u64, width: u32) -> u64
    requires { width ≤ 6 }
    ensures { result ≡ word % 2 ^ width }
{
    word % (1 << width)
}

impl Chunked {
    // The bits of a number. Zero has a group too.
    fn spell(&self, number: u32) -> Spelled
        ensures { result ≡ groups 32 self.now.later self.now.first number }
    {
        let mut rest = u64::from(number);
        let mut spelled = Spelled { word: 0, size: 0 }.then(rest, self.first);
        rest >>= self.first;
        // A `while`: a number, not a list, is taken apart.
        while rest > 0 {
            spelled = spelled.then(rest, self.later);
            rest >>= self.later;
        }
        spelled
    }
}

impl CountCode for Chunked {
    ghost meaning = { λ c. chunked_meaning c.first c.later };

    ghost sound = { λ c. chunked_sound c.first c.later c.first_least c.first_most c.later_least c.later_most };

    fn top(&self) -> u32 {
        u32::MAX
    }

    fn name(&self) -> CodeName {
        [1, self.first as u8, self.later as u8]
    }

    fn write(&self, number: u64, place: usize, buffer: &mut [u8]) -> Result<usize, WriteRefusal> {
        if number > u64::from(self.top()) {
            return Err(WriteRefusal::AboveTop);
        }
        let spelled = self.spell(number as u32);
        write_bits(spelled.word, spelled.size, place, buffer)
    }

    fn read(&self, place: usize, bytes: &[u8]) -> Result<Counted, CountFault> {
        let mut reader = BitReader::new(bytes, place);
        let mut value: u64 = 0;
        let mut seen: u32 = 0;
        let mut width = self.first;
        // A `while`: a number is put together, and any turn may end the reading.
        while seen < 32 {
            let word = reader.take(width + 1)?;
            let group = lowest(word, width);
            value += group << seen;
            if value > u64::from(u32::MAX) {
                return Err(CountFault::Bad(place));
            }
            if word >> width == 0 {
                if seen > 0 && group == 0 {
                    return Err(CountFault::Bad(place));
                }
                return Ok(Counted {
                    number: value as u32,
                    next: reader.place(),
                });
            }
            seen += width;
            width = self.later;
        }
        Err(CountFault::Bad(place))
    }
}
