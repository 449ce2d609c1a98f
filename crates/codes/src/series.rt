ghost use Rattle.std.specs.Prelude.{◌≡◌, take};
ghost use Rattle.codes.specs.Series.{series_from, series_bytes, ReadBack};

use rules::count::{CountCode, WriteRefusal};

/// How many counts of a series were written, the place after them, and why the next was refused, if one was.
// No `Result`: the count and the place stand in both outcomes.
#[derive(Clone, Copy, Debug, PartialEq, Eq)]
pub struct Series {
    pub written: usize,
    pub next: usize,
    pub refusal: Option<WriteRefusal>,
}

/// Writes counts one after the other from the place on, up to the first that is refused.
/// Whatever the code, they are then read back as themselves.
pub fn write_series<C: CountCode>(
    code: &C,
    numbers: &[u64],
    place: usize,
    buffer: &mut [u8],
) -> Series
    ensures answer { result ≡ series_from (C.CountCode.meaning code.now) 0 numbers.now place buffer.old }
    ensures bytes { buffer.new ≡ series_bytes (C.CountCode.meaning code.now) numbers.now place buffer.old }
    ensures readback { ReadBack (C.CountCode.meaning code.now) (take result.written numbers.now)
        place result.next buffer.new }
{
    let mut next = place;
    for (written, &number) in numbers.iter().enumerate() {
        match code.write(number, next, buffer) {
            Ok(after) => next = after,
            Err(refusal) => return Series {
                written,
                next,
                refusal: Some(refusal),
            },
        }
    }
    Series {
        written: numbers.len(),
        next,
        refusal: None,
    }
}
