ghost use Rattle.std.specs.Prelude.{◌≡◌, ◌*◌, ◌<◌, ◌≤◌, min, false, length, take, drop, slice_index_or};
ghost use Rattle.rules.specs.Bits.{bits_of, bits_in, value_of};
ghost use Rattle.codes.specs.Reader.{bits_left, word_taken, moved};

use rules::count::BytesEnd;

/// Reads bits of a slice from a place on.
// It is `Copy`, which a type with a lifetime and a model can't be; so clauses name its fields.
#[derive(Clone, Copy)]
pub struct BitReader<'a> {
    bytes: &'a [u8],
    from: usize,
    place: usize,
}

impl<'a> BitReader<'a> {
    pub fn new(bytes: &'a [u8], place: usize) -> BitReader<'a>
        ensures { result ≡ record { bytes = bytes.entry; from = place; place = place } }
    {
        BitReader {
            bytes,
            from: place,
            place,
        }
    }

    /// The place of the next bit.
    pub fn place(&self) -> usize
        ensures { result ≡ self.now.place }
    {
        self.place
    }

    /// The next `width` bits as a number, lowest first; a word has 64, so no more are taken at once.
    /// Where fewer are left, the fault tells where the reader began, and the reader stays.
    pub fn take(&mut self, width: u32) -> Result<u64, BytesEnd>
        ensures answer { result ≡ word_taken self.old.from (min width 64) (bits_left self.old) }
        ensures after { self.new ≡ moved self.old (min width 64) }
    {
        let width = width.min(64) as usize;
        if bit_len(self.bytes).saturating_sub(self.place) < width {
            return Err(BytesEnd { from: self.from });
        }
        let word = word_at(self.bytes, self.place, width);
        self.place += width;
        Ok(word)
    }
}

/// How many bits of a slice have a place after them.
pub fn bit_len(bytes: &[u8]) -> usize
    ensures { result ≡ length (bits_in bytes.now) }
{
    bytes.len().saturating_mul(8)
}

pub(crate) fn bit_at(bytes: &[u8], place: usize) -> bool
    requires { place < 8 * length bytes.now }
    ensures { result ≡ slice_index_or (bits_of bytes.now) place false }
{
    (bytes[place / 8] >> (place % 8)) % 2 == 1
}

fn word_at(bytes: &[u8], place: usize, width: usize) -> u64
    requires within { width ≤ length (drop place (bits_in bytes.now)) }
    requires fits { width ≤ 64 }
    ensures { result ≡ value_of (take width (drop place (bits_in bytes.now))) }
{
    let mut word: u64 = 0;
    // By places, since a bit is no element that a slice could lend; from the highest down, so that each bit doubles
    // those above it.
    for at in (place..place + width).rev() {
        word = 2 * word + u64::from(bit_at(bytes, at));
    }
    word
}
