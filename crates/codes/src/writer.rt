ghost use Rattle.std.specs.Prelude.{◌≡◌, ◌*◌, ◌<◌, length, slice_set};
ghost use Rattle.rules.specs.Bits.{bits_of, low_bits};
ghost use Rattle.rules.specs.Calls.{room, laid};

use crate::reader::{bit_at, bit_len};
use rules::count::WriteRefusal;

/// Lays the lowest `width` bits of `word` over the buffer's from the place on, and answers the place after them.
pub fn write_bits(
    word: u64,
    width: u32,
    place: usize,
    buffer: &mut [u8],
) -> Result<usize, WriteRefusal>
    ensures answer { result ≡ room place width buffer.old }
    ensures bytes { buffer.new ≡ laid place (low_bits width word) buffer.old }
{
    let end = place_after(place, width, buffer)?;
    let mut rest = word;
    // By places: a bit is no element that a slice could lend.
    for at in place..end {
        set_bit(buffer, at, rest % 2 == 1);
        rest /= 2;
    }
    Ok(end)
}

/// The place after so many bits from a place on, if the buffer has them.
fn place_after(place: usize, width: u32, buffer: &[u8]) -> Result<usize, WriteRefusal>
    ensures { result ≡ room place width buffer.now }
{
    let size = bit_len(buffer);
    place
        .checked_add(width as usize)
        .filter(|&end| end <= size)
        .ok_or(WriteRefusal::NoRoom)
}

fn set_bit(buffer: &mut [u8], place: usize, bit: bool)
    requires { place < 8 * length buffer.old }
    ensures { bits_of buffer.new ≡ slice_set (bits_of buffer.old) place bit }
{
    if bit_at(buffer, place) != bit {
        buffer[place / 8] ^= 1 << (place % 8);
    }
}
