use crate::reply::reply;
use crate::report::{Bits, Line};
use crate::request::{CodeAsked, ParseFault, parse};
use std::alloc::Global;
use std::process::Abort;
use std::test::Fail;
use text::place::Place;

fn bad_at(
    rt: &impl Abort,
    heap: Global,
    text: &[u8],
    line: usize,
    column: usize,
) -> Result<(), Fail> {
    match parse(heap, text) {
        Err(ParseFault::BadWord(place)) => {
            assert_eq!(rt; place.line, line);
            assert_eq!(rt; place.column, column);
            Ok(())
        }
        Err(ParseFault::NoMemory(_)) => Err(Fail::new("no memory")),
        Ok(_) => Err(Fail::new("accepted")),
    }
}

#[test]
fn bad_code_words(rt: HostRuntime) -> Result<(), Fail> {
    let heap = rt.alloc();
    bad_at(&rt, heap, b"", 1, 1)?;
    bad_at(&rt, heap, b"\n3\n", 1, 1)?;
    bad_at(&rt, heap, b"X 2", 1, 1)?;
    bad_at(&rt, heap, b"K5 2", 1, 1)?;
    bad_at(&rt, heap, b"K", 1, 3)?;
    bad_at(&rt, heap, b"K  2", 1, 3)?;
    bad_at(&rt, heap, b"K 2", 1, 5)?;
    bad_at(&rt, heap, b"K 2 ", 1, 5)?;
    bad_at(&rt, heap, b"K 2 100000000", 1, 5)?;
    bad_at(&rt, heap, b"F 4 2", 1, 5)
}

#[test]
fn bad_counts(rt: HostRuntime) -> Result<(), Fail> {
    let heap = rt.alloc();
    bad_at(&rt, heap, b"F 4\n\n3", 2, 1)?;
    bad_at(&rt, heap, b"F 4\nff", 2, 1)?;
    bad_at(&rt, heap, b"F 4\n3\n00000000000000001", 3, 1)?;
    bad_at(&rt, heap, b"F 4\n3 4", 2, 3)?;
    bad_at(&rt, heap, b"F 4\n3 ", 2, 3)
}

#[test]
fn asked(rt: HostRuntime) -> Result<(), Fail> {
    let Ok(request) = parse(rt.alloc(), b"K 2 2\n3\nFFFFFFFFFFFFFFFF") else {
        return Err(Fail::new("refused"));
    };
    assert!(rt; matches!(request.code, CodeAsked::Chunked(2, 2)));
    assert!(rt; request.counts.as_slice() == [3u64, u64::MAX].as_slice());
    Ok(())
}

#[test]
fn lines(rt: HostRuntime) -> Result<(), Fail> {
    let heap = rt.alloc();
    let bits = Bits {
        from: 2,
        to: 8,
        buffer: &[0x3C],
    };
    let lines = [
        (
            Line::Count { count: 7, bits },
            "count 7 bits 111100 place 8",
        ),
        (
            Line::Read {
                count: 300,
                place: 27,
            },
            "read 12C place 27",
        ),
        (Line::Bytes(&[7, 0xBC]), "bytes 2 07BC"),
        (
            Line::Total {
                counts: 5,
                bits: 75,
            },
            "counts 5 bits 75",
        ),
        (Line::Refused(7), "refused 7"),
        (Line::Bad(Place { line: 1, column: 3 }), "bad 1 3"),
    ];
    for (line, text) in lines {
        assert!(rt; line.to_string(heap)?.as_str() == text);
    }
    Ok(())
}

#[test]
fn replies(rt: HostRuntime) -> Result<(), Fail> {
    let heap = rt.alloc();
    assert!(rt; reply(heap, b"K 7 1\n3")?.as_str() == "refused 1\n");
    assert!(rt; reply(heap, b"K 2\n3")?.as_str() == "bad 1 5\n");
    assert!(rt; reply(heap, b"F 4")?.as_str() == "bytes 0 \ncounts 0 bits 0\n");
    let fixed =
        "count F bits 1111 place 4\nrefused 6\nbytes 1 0F\nread F place 4\ncounts 1 bits 4\n";
    assert!(rt; reply(heap, b"F 4\nF\n10\n1\n")?.as_str() == fixed);
    Ok(())
}

// 128 counts of 64 bits fill the buffer.
#[test]
fn full_buffer(rt: HostRuntime) -> Result<(), Fail> {
    let heap = rt.alloc();
    let mut text = String::from_str(heap, "K 1 1\n")?;
    for _ in 0..129 {
        text.push_str("FFFFFFFF\n")?;
    }
    let printed = reply(heap, text.as_bytes())?;
    assert!(rt; printed.as_str().ends_with("counts 128 bits 8192\n"));
    assert!(rt; printed.as_str().find("refused 7\n").is_some());
    Ok(())
}
