ghost use Rattle.std.specs.Prelude.{◌≡◌, ℕ, IfOk, string_bytes};
ghost use Rattle.codes.specs.Series.{ReadBack};
ghost use Rattle.counts.specs.Output.{count_lines, read_lines, output_of};

use crate::report::{Bits, Line};
use codes::series::write_series;
use rules::count::CountCode;
use std::alloc::{AllocError, Global};

// The lines of a buffer's counts, as they were written and as they are read back. They are two texts, of which the
// second is printed far behind the first.
#[derive(Drop)]
struct Listing {
    counts: String,
    reads: String,
}

fn listed<C: CountCode>(
    heap: Global,
    code: &C,
    counts: &[u64],
    buffer: &[u8],
) -> Result<Listing, AllocError>
    requires { (end : ℕ) × ReadBack (C.CountCode.meaning code.now) counts.now 0 end buffer.now }
    ensures { IfOk result (λ l.
        (string_bytes l.counts ≡ count_lines (C.CountCode.meaning code.now) counts.now 0)
        × (string_bytes l.reads ≡ read_lines (C.CountCode.meaning code.now) counts.now 0)) }
{
    let mut listing = Listing {
        counts: String::new(heap),
        reads: String::new(heap),
    };
    let mut from = 0;
    for &count in counts {
        let Ok(read) = code.read(from, buffer) else {
            unreachable!();
        };
        let to = read.next;
        let bits = Bits { from, to, buffer };
        writeln!(listing.counts, "{}", Line::Count { count, bits })?;
        let count = u64::from(read.number);
        writeln!(listing.reads, "{}", Line::Read { count, place: to })?;
        from = to;
    }
    Ok(listing)
}

/// All that is printed for counts in a code, over a buffer of 1,024 bytes.
pub fn output<C: CountCode>(heap: Global, code: &C, counts: &[u64]) -> Result<String, AllocError>
    ensures { IfOk result (λ s. string_bytes s ≡ output_of (C.CountCode.meaning code.now) counts.now) }
{
    let mut buffer = [0u8; 1024];
    let series = write_series(code, counts, 0, &mut buffer);
    let Listing {
        counts: mut text,
        reads,
    } = listed(heap, code, &counts[..series.written], &buffer)?;
    if let Some(refusal) = series.refusal {
        writeln!(text, "{}", Line::Refused(u8::from(refusal)))?;
    }
    let bytes = &buffer[..series.next.div_ceil(8)];
    writeln!(text, "{}", Line::Bytes(bytes))?;
    text.push_str(reads.as_str())?;
    let total = Line::Total {
        counts: series.written,
        bits: series.next,
    };
    writeln!(text, "{total}")?;
    Ok(text)
}
