ghost use Rattle.std.specs.Prelude.{◌≡◌, ℕ, ◌<◌, ◌≤◌, min, Some, IfSome};
ghost use Rattle.text.specs.Hex.{digit_of, number_in, digit_char, hex_digits, hex_width, hex_text, hex_bytes};

use std::fmt;

/// The value of a digit 0 to 9 or A to F.
// Not `to_digit`, and below not `from_str_radix`: both take small letters too, and the second a sign.
pub fn digit_value(c: u8) -> Option<u64>
    ensures is { result ≡ digit_of c }
    ensures below { IfSome result (λ d. d < 16) }
{
    match c {
        b'0'..=b'9' => Some(u64::from(c - b'0')),
        b'A'..=b'F' => Some(u64::from(c - b'A') + 10),
        _ => None,
    }
}

/// The number that a word of 1 to 16 digits 0 to 9 and A to F says, if it is not above `most`.
/// The text of a number is read as that number.
#[tactic(auto, using(crate::proofs::Digits::text_read))]
pub fn number(word: &[u8], most: u64) -> Option<u64>
    ensures is { result ≡ number_in most word.now }
    ensures reads { (n : ℕ) → n ≤ most → number_in most (hex_text n) ≡ Some n }
{
    if !(1..=16).contains(&word.len()) {
        return None;
    }
    let mut value: u64 = 0;
    for &c in word {
        value = 16 * value + digit_value(c)?;
    }
    (value <= most).then_some(value)
}

// Not `from_digit`: it gives small letters, and an `Option`.
fn digit_char(digit: u64) -> char
    requires { digit < 16 }
    ensures { result ≡ digit_char digit }
{
    let first = if digit < 10 { b'0' } else { b'A' - 10 };
    char::from(first + digit as u8)
}

/// How many digits a value has, one at least.
pub fn width(value: u64) -> u32
    ensures { result ≡ hex_width value }
{
    value.max(1).ilog2() / 4 + 1
}

/// The `count` lowest digits of a value, highest first; a value has 16.
// Not `{:X}`: it cuts no number to so many digits. With this, `Hex` is one call, and `HexBytes` one for each byte.
#[derive(Clone, Copy, Debug, PartialEq, Eq)]
pub struct Digits {
    pub count: u32,
    pub value: u64,
}

impl fmt::Display for Digits {
    ghost output = { λ d. Some (hex_digits (min d.count 16) d.value) };

    ghost styled_output = { λ d _. Some (hex_digits (min d.count 16) d.value) };

    fn fmt<W: fmt::Write>(&self, f: &mut fmt::Formatter<W>) -> fmt::Result {
        for place in (0..self.count.min(16)).rev() {
            f.write_char(digit_char((self.value >> (4 * place)) % 16))?;
        }
        Ok(())
    }
}

/// A value in as many digits as it has.
#[derive(Clone, Copy, Debug, PartialEq, Eq)]
pub struct Hex(pub u64);

impl fmt::Display for Hex {
    ghost output = { λ h. Some (hex_text h.0) };

    ghost styled_output = { λ h _. Some (hex_text h.0) };

    #[tactic(auto, using(crate::proofs::Digits::digits_text))]
    fn fmt<W: fmt::Write>(&self, f: &mut fmt::Formatter<W>) -> fmt::Result {
        let value = self.0;
        Digits {
            count: width(value),
            value,
        }
        .fmt(f)
    }
}

/// Two digits for each byte.
#[derive(Clone, Copy, Debug, PartialEq, Eq)]
pub struct HexBytes<'a>(pub &'a [u8]);

impl fmt::Display for HexBytes<'_> {
    ghost output = { λ b. Some (hex_bytes b.0.now) };

    ghost styled_output = { λ b _. Some (hex_bytes b.0.now) };

    fn fmt<W: fmt::Write>(&self, f: &mut fmt::Formatter<W>) -> fmt::Result {
        for &byte in self.0 {
            Digits {
                count: 2,
                value: u64::from(byte),
            }
            .fmt(f)?;
        }
        Ok(())
    }
}
