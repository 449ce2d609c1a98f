ghost use Rattle.std.specs.Prelude.{◌≡◌, ◌+◌, ◌^◌, ◌<◌, ◌≤◌, length, MatchResult, position, ◌==◌};
ghost use Rattle.text.specs.Lines.{up_to};

use crate::hex;
use crate::place::Place;

/// The words of one line, from the index `at` on.
// A slice with an index into it: the index is the column that a fault tells. It is `Copy`, which a type with a lifetime
// and a model can't be; so views in specs/ say what it stands for.
#[derive(Clone, Copy)]
pub struct Words<'a> {
    line: &'a [u8],
    number: usize,
    at: usize,
    ghost short: { length line.now < 2 ^ 63 },
    ghost inside: { at ≤ length line.now + 1 },
    ghost few: { number ≤ 2 ^ 63 },
}

impl<'a> Words<'a> {
    ghost use Rattle.text.specs.Lines.{cursor, next_place, word_at, number_at, letter_at, is_end, Takes};
    ghost use Rattle.text.specs.Views.{words_at};

    pub(crate) fn new(line: &'a [u8], number: usize) -> Words<'a>
        requires short { length line.now < 2 ^ 63 }
        requires few { number ≤ 2 ^ 63 }
        ensures { words_at result ≡ cursor line.now number 0 }
    {
        Words {
            line,
            number,
            at: 0,
        }
    }

    /// The place at which the next word starts, or should start.
    pub fn place(&self) -> Place
        ensures { result ≡ next_place (words_at self.now) }
    {
        Place {
            line: self.number,
            column: self.at + 1,
        }
    }

    // The next word, or the place where it should start.
    fn word(&self) -> Result<&'a [u8], Place>
        ensures { MatchResult result
            (λ w. (self.now.at ≤ length self.now.line.now) × (w.now ≡ word_at self.now.line.now self.now.at))
            (λ place. (length self.now.line.now < self.now.at) × (place ≡ next_place (words_at self.now))) }
    {
        let rest = self.line.get(self.at..).ok_or(self.place())?;
        Ok(up_to(rest, b' '))
    }

    /// The next word as a number that is not above `most`.
    pub fn number(&mut self, most: u64) -> Result<u64, Place>
        ensures { Takes (number_at most) (words_at self.old) (words_at self.new) result }
    {
        let word = self.word()?;
        let value = hex::number(word, most).ok_or(self.place())?;
        self.at += word.len() + 1;
        Ok(value)
    }

    /// The next word as one letter.
    pub fn letter(&mut self) -> Result<u8, Place>
        ensures { Takes letter_at (words_at self.old) (words_at self.new) result }
    {
        let word = self.word()?;
        let [letter] = word else {
            return Err(self.place());
        };
        self.at += word.len() + 1;
        Ok(*letter)
    }

    /// Whether no word is left.
    pub fn is_end(&self) -> bool
        ensures { result ≡ is_end (words_at self.now) }
    {
        self.at > self.line.len()
    }
}

fn position_of(bytes: &[u8], mark: u8) -> Option<usize>
    ensures { result ≡ position (λ b. b == mark) bytes.now }
{
    bytes.iter().position(|b| *b == mark)
}

/// The bytes before the first mark, or all of them.
pub(crate) fn up_to(bytes: &[u8], mark: u8) -> &[u8]
    ensures { result.now ≡ up_to mark bytes.now }
{
    match position_of(bytes, mark) {
        Some(end) => &bytes[..end],
        None => bytes,
    }
}
