ghost use Rattle.std.specs.Prelude.{◌≡◌, ◌-◌, ◌^◌, []};
ghost use Rattle.text.specs.Lines.{number_at, Takes};
ghost use Rattle.text.specs.Views.{words_at, cursors_left};
ghost use Rattle.counts.specs.Request.{chunked_asked, fixed_asked, code_asked, ended, count_asked, counts_asked, TellsCounts, Tells, asked_by};
ghost use Rattle.counts.specs.declared.request.ParseFault.TheVariants.{BadWord, NoMemory};

use std::alloc::{AllocError, AllocFailed, Global};
use text::lines::Lines;
use text::place::Place;
use text::words::Words;

#[derive(Clone, Copy, Debug, PartialEq, Eq)]
pub enum CodeAsked {
    Chunked(u32, u32),
    Fixed(u32),
}

#[derive(Drop)]
pub struct Request {
    pub code: CodeAsked,
    pub counts: Vec<u64>,
}

#[derive(Clone, Copy, PartialEq, Eq)]
pub enum ParseFault {
    BadWord(Place),
    NoMemory(AllocError),
}

impl From<Place> for ParseFault {
    ghost from_gives = { λ p r. r ≡ BadWord p };

    fn from(place: Place) -> ParseFault {
        ParseFault::BadWord(place)
    }
}

impl From<AllocError> for ParseFault {
    ghost from_gives = { λ e r. r ≡ NoMemory e };

    fn from(e: AllocError) -> ParseFault {
        ParseFault::NoMemory(e)
    }
}

impl<T: Drop> From<AllocFailed<T>> for ParseFault {
    ghost from_gives = { λ _ r. r ≡ NoMemory (record {}) };

    fn from(e: AllocFailed<T>) -> ParseFault {
        ParseFault::NoMemory(AllocError::from(e))
    }
}

// A number of 32 bits.
fn number32(words: &mut Words) -> Result<u32, Place>
    ensures { Takes (number_at (2 ^ 32 - 1)) (words_at words.old) (words_at words.new) result }
{
    let number = words.number(u64::from(u32::MAX))?;
    Ok(number as u32)
}

fn end(words: &Words) -> Result<(), Place>
    ensures { result ≡ ended tt (words_at words.now) }
{
    if words.is_end() {
        Ok(())
    } else {
        Err(words.place())
    }
}

fn chunked_asked(words: &mut Words) -> Result<CodeAsked, Place>
    ensures { result ≡ chunked_asked (words_at words.old) }
{
    let first = number32(words)?;
    let later = number32(words)?;
    end(words)?;
    Ok(CodeAsked::Chunked(first, later))
}

fn fixed_asked(words: &mut Words) -> Result<CodeAsked, Place>
    ensures { result ≡ fixed_asked (words_at words.old) }
{
    let width = number32(words)?;
    end(words)?;
    Ok(CodeAsked::Fixed(width))
}

fn code_asked(words: &mut Words) -> Result<CodeAsked, Place>
    ensures { result ≡ code_asked (words_at words.old) }
{
    let place = words.place();
    let letter = words.letter()?;
    match letter {
        b'K' => chunked_asked(words),
        b'F' => fixed_asked(words),
        _ => Err(place),
    }
}

fn count_asked(words: &mut Words) -> Result<u64, Place>
    ensures { result ≡ count_asked (words_at words.old) }
{
    let count = words.number(u64::MAX)?;
    end(words)?;
    Ok(count)
}

fn counts_asked(heap: Global, lines: Lines) -> Result<Vec<u64>, ParseFault>
    ensures { TellsCounts result (counts_asked [] (cursors_left lines.entry)) }
{
    let mut counts = Vec::new(heap);
    for mut words in lines {
        counts.push(count_asked(&mut words)?)?;
    }
    Ok(counts)
}

/// What a text asks for.
pub fn parse(heap: Global, text: &[u8]) -> Result<Request, ParseFault>
    ensures { Tells result (asked_by text.now) }
{
    let mut lines = Lines::new(text);
    let mut header = lines.next_line();
    let code = code_asked(&mut header)?;
    let counts = counts_asked(heap, lines)?;
    Ok(Request { code, counts })
}
