ghost use Rattle.std.specs.Prelude.{◌≡◌, [], ◌∷◌, ◌++◌, IfOk, string_bytes};
ghost use Rattle.rules.specs.Views.{on_ok};
ghost use Rattle.counts.specs.Report.{line_text};
ghost use Rattle.counts.specs.Reply.{answer_in, answer_to, reply_to};

use crate::output::output;
use crate::report::Line;
use crate::request::{CodeAsked, ParseFault, Request, parse};
use codes::chunked::Chunked;
use codes::fixed::Fixed;
use codes::refusal::MakeRefusal;
use rules::count::CountCode;
use std::alloc::{AllocError, Global};

// One line and no more.
fn alone(heap: Global, line: Line) -> Result<String, AllocError>
    ensures { IfOk result (λ s. string_bytes s ≡ line_text line.entry ++ 10 ∷ []) }
{
    format!(in heap; "{line}\n")
}

// The counts in a code that was made, or that it is refused.
fn answer_in<C: CountCode + Drop>(
    heap: Global,
    made: Result<C, MakeRefusal>,
    counts: &[u64],
) -> Result<String, AllocError>
    ensures { IfOk result (λ s. string_bytes s ≡ answer_in (on_ok C.CountCode.meaning made) counts.now) }
{
    match made {
        Ok(code) => output(heap, &code, counts),
        Err(refusal) => alone(heap, Line::Refused(u8::from(refusal))),
    }
}

fn answer(heap: Global, request: &Request) -> Result<String, AllocError>
    ensures { IfOk result (λ s. string_bytes s ≡ answer_to request.now.code request.now.counts.items) }
{
    let counts = request.counts.as_slice();
    match request.code {
        CodeAsked::Chunked(first, later) => answer_in(heap, Chunked::new(first, later), counts),
        CodeAsked::Fixed(width) => answer_in(heap, Fixed::new(width), counts),
    }
}

/// All that is printed for an input.
pub fn reply(heap: Global, text: &[u8]) -> Result<String, AllocError>
    ensures { IfOk result (λ s. string_bytes s ≡ reply_to text.now) }
{
    match parse(heap, text) {
        Ok(request) => answer(heap, &request),
        Err(ParseFault::BadWord(place)) => alone(heap, Line::Bad(place)),
        Err(ParseFault::NoMemory(fault)) => Err(fault),
    }
}
