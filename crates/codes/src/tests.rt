use crate::chunked::Chunked;
use crate::fixed::Fixed;
use crate::refusal::MakeRefusal;
use crate::series::write_series;
use rules::count::{CountCode, CountFault, WriteRefusal};
use std::process::Abort;
use std::test::Fail;

fn chunked(first: u32, later: u32) -> Result<Chunked, Fail> {
    Chunked::new(first, later).map_err(|_| Fail::new("refused"))
}

fn fixed(width: u32) -> Result<Fixed, Fail> {
    Fixed::new(width).map_err(|_| Fail::new("refused"))
}

// A number that is written at a place is read there, and its bits end at `next`.
fn round<C: CountCode>(
    rt: &impl Abort,
    code: &C,
    number: u32,
    place: usize,
    next: usize,
) -> Result<(), Fail> {
    let mut buffer = [0xA5u8; 16];
    assert!(rt; code.write(u64::from(number), place, &mut buffer).ok() == Some(next));
    let read = code
        .read(place, &buffer)
        .map_err(|_| Fail::new("not read"))?;
    assert_eq!(rt; read.number, number);
    assert_eq!(rt; read.next, next);
    Ok(())
}

#[test]
fn lengths_and_widths(rt: HostRuntime) {
    for (first, later) in [(0, 1), (7, 1), (1, 0), (1, 7)] {
        assert!(rt; Chunked::new(first, later).is_err());
    }
    assert!(rt; Chunked::new(1, 6).is_ok() && Chunked::new(6, 1).is_ok());
    assert!(rt; Fixed::new(3).is_err() && Fixed::new(33).is_err());
    assert!(rt; Fixed::new(4).is_ok() && Fixed::new(32).is_ok());
    assert_eq!(rt; u8::from(MakeRefusal::OutOfRange), 1);
    assert_eq!(rt; u8::from(WriteRefusal::AboveTop), 6);
    assert_eq!(rt; u8::from(WriteRefusal::NoRoom), 7);
}

#[test]
fn greatest_numbers(rt: HostRuntime) -> Result<(), Fail> {
    round(&rt, &chunked(1, 1)?, u32::MAX, 0, 64)?;
    round(&rt, &chunked(1, 1)?, u32::MAX, 61, 125)?;
    round(&rt, &chunked(6, 6)?, u32::MAX, 3, 45)?;
    round(&rt, &fixed(32)?, u32::MAX, 5, 37)?;
    round(&rt, &fixed(4)?, 15, 124, 128)
}

#[test]
fn names(rt: HostRuntime) -> Result<(), Fail> {
    assert!(rt; chunked(2, 5)?.name() == [1, 2, 5]);
    assert!(rt; fixed(9)?.name() == [2, 9, 0]);
    assert_eq!(rt; fixed(9)?.top(), 511);
    Ok(())
}

#[test]
fn refusals_leave_the_buffer(rt: HostRuntime) -> Result<(), Fail> {
    let mut buffer = [0xA5u8];
    assert_eq!(rt;
        fixed(4)?.write(16, 9, &mut buffer),
        Err(WriteRefusal::AboveTop)
    );
    assert_eq!(rt;
        fixed(4)?.write(15, 5, &mut buffer),
        Err(WriteRefusal::NoRoom)
    );
    assert_eq!(rt;
        chunked(1, 1)?.write(1 << 32, 0, &mut buffer),
        Err(WriteRefusal::AboveTop)
    );
    assert!(rt; buffer == [0xA5]);
    assert_eq!(rt; fixed(4)?.write(15, 4, &mut buffer), Ok(8));
    assert!(rt; buffer == [0xF5]);
    Ok(())
}

// The groups 11 1 00 0; 11 1 0 from the place 4 on; and no bit.
#[test]
fn bad_and_cut(rt: HostRuntime) -> Result<(), Fail> {
    let code = chunked(2, 2)?;
    assert_eq!(rt; code.read(0, &[7]), Err(CountFault::Bad(0)));
    for place in [4, 8, 9] {
        let Err(CountFault::Cut(end)) = code.read(place, &[0x70]) else {
            return Err(Fail::new("not cut"));
        };
        assert_eq!(rt; end.from, place);
    }
    Ok(())
}

#[test]
fn full_buffer(rt: HostRuntime) -> Result<(), Fail> {
    let mut buffer = [0u8; 16];
    let series = write_series(
        &chunked(1, 1)?,
        &[u64::from(u32::MAX), u64::from(u32::MAX), 0],
        0,
        &mut buffer,
    );
    assert_eq!(rt; series.written, 2);
    assert_eq!(rt; series.next, 128);
    assert_eq!(rt; series.refusal, Some(WriteRefusal::NoRoom));
    Ok(())
}
