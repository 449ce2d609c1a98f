ghost use Rattle.std.specs.Prelude.{Some};

use codes::reader::BitReader;
use std::fmt;
use text::hex::{Hex, HexBytes};
use text::place::Place;

/// The bits of a buffer between two places, as 0s and 1s.
#[derive(Clone, Copy, Debug, PartialEq, Eq)]
pub struct Bits<'a> {
    pub from: usize,
    pub to: usize,
    pub buffer: &'a [u8],
}

impl fmt::Display for Bits<'_> {
    ghost use Rattle.counts.specs.Report.{bits_text, bits_between};

    ghost output = { λ b. Some (bits_text (bits_between b.from b.to b.buffer.now)) };

    fn fmt<W: fmt::Write>(&self, f: &mut fmt::Formatter<W>) -> fmt::Result {
        let mut reader = BitReader::new(self.buffer, self.from);
        for _ in self.from..self.to {
            let Ok(bit) = reader.take(1) else {
                return Ok(());
            };
            write!(f, "{bit}")?;
        }
        Ok(())
    }
}

/// A line that is printed.
#[derive(Clone, Copy, Debug, PartialEq, Eq)]
pub enum Line<'a> {
    Count { count: u64, bits: Bits<'a> },
    Read { count: u64, place: usize },
    Bytes(&'a [u8]),
    Total { counts: usize, bits: usize },
    // The number is what is printed, whichever enum it is of.
    Refused(u8),
    Bad(Place),
}

impl fmt::Display for Line<'_> {
    ghost use Rattle.counts.specs.Report.{line_text};

    ghost output = { λ line. Some (line_text line) };

    fn fmt<W: fmt::Write>(&self, f: &mut fmt::Formatter<W>) -> fmt::Result {
        match self {
            Line::Count { count, bits } => {
                write!(f, "count {} bits {bits} place {}", Hex(*count), bits.to)
            }
            Line::Read { count, place } => write!(f, "read {} place {place}", Hex(*count)),
            Line::Bytes(bytes) => write!(f, "bytes {} {}", bytes.len(), HexBytes(bytes)),
            Line::Total { counts, bits } => write!(f, "counts {counts} bits {bits}"),
            Line::Refused(number) => write!(f, "refused {number}"),
            Line::Bad(place) => write!(f, "bad {} {}", place.line, place.column),
        }
    }
}
