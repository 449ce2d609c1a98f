ghost use Rattle.std.specs.Prelude.{◌≡◌, ◌+◌, ◌^◌, ◌<◌, length};

use crate::words::{Words, up_to};

/// The lines of a text. `number` of them were given out.
// Views say what it stands for, as with `Words`.
#[derive(Clone, Copy)]
pub struct Lines<'a> {
    rest: &'a [u8],
    number: usize,
    ghost few: { number + length rest.now < 2 ^ 63 },
}

impl<'a> Lines<'a> {
    ghost use Rattle.text.specs.Lines.{lines_of, first_line, after_first, number_after, no_lines};
    ghost use Rattle.text.specs.Views.{words_at, lines_left, lines_given};

    pub fn new(text: &'a [u8]) -> Lines<'a>
        ensures lines { lines_left result ≡ lines_of text.now }
        ensures given { lines_given result ≡ 0 }
    {
        Lines {
            rest: text,
            number: 0,
        }
    }

    /// Whether no line is left.
    pub fn is_empty(&self) -> bool
        ensures { result ≡ no_lines (lines_left self.now) }
    {
        self.rest.is_empty()
    }

    /// The words of the next line, or of an empty one past the last.
    pub fn next_line(&mut self) -> Words<'a>
        ensures answer { words_at result ≡ first_line (lines_left self.old) (lines_given self.old) }
        ensures lines { lines_left self.new ≡ after_first (lines_left self.old) }
        ensures given { lines_given self.new ≡ number_after (lines_left self.old) (lines_given self.old) }
    {
        let number = self.number + 1;
        if self.rest.is_empty() {
            return Words::new(self.rest, number);
        }
        let line = up_to(self.rest, b'\n');
        self.rest = self.rest.get(line.len() + 1..).unwrap_or(&[]);
        self.number = number;
        Words::new(line, number)
    }
}

// The lines that are left, one after the other.
impl<'a> Iterator for Lines<'a> {
    ghost use Rattle.std.specs.Iterator.{item_count};
    ghost use Rattle.text.specs.Views.{cursors_left, GivesLine};

    type Item = Words<'a>;

    ghost next_gives = { GivesLine };

    ghost remaining = { item_count cursors_left };

    fn next(&mut self) -> Option<Words<'a>> {
        if self.is_empty() {
            return None;
        }
        Some(self.next_line())
    }
}
