use crate::list::{AccessList, ListedAccess};
use crate::processor::Core;
use crate::refusal::ProgramRefusal;
use rules::program::{Program, Want};
use std::alloc::{AllocError, Global};
use std::process::Abort;
use std::test::Fail;

// The program has these wants one after the other, moves on with the value each time, and is ended then for good.
fn plays<P: Program>(
    rt: &impl Abort,
    program: &mut P,
    value: u64,
    wants: &[Want],
) -> Result<(), Fail> {
    for want in wants {
        assert_eq!(rt; program.want(), *want);
        program.go(value);
    }
    assert_eq!(rt; program.want(), Want::Ended);
    program.go(value);
    assert_eq!(rt; program.want(), Want::Ended);
    Ok(())
}

fn core_plays(
    rt: &impl Abort,
    heap: Global,
    words: &[u32],
    value: u64,
    wants: &[Want],
) -> Result<(), Fail> {
    let mut core = Core::new(heap, words).map_err(|_| Fail::new("refused"))?;
    plays(rt, &mut core, value, wants)
}

fn list_plays(
    rt: &impl Abort,
    heap: Global,
    accesses: &[ListedAccess],
    wants: &[Want],
) -> Result<(), Fail> {
    let mut list = AccessList::new(heap, accesses).map_err(|_| Fail::new("refused"))?;
    plays(rt, &mut list, 9, wants)
}

fn load(address: u32, size: u8) -> Want {
    Want::Load { address, size }
}

fn store(address: u32, size: u8, value: u64) -> Want {
    Want::Store {
        address,
        size,
        value,
    }
}

fn listed(kind: u8) -> ListedAccess {
    ListedAccess {
        kind,
        address: 8,
        size: 4,
        value: 7,
    }
}

#[test]
fn numbers_and_loads(rt: HostRuntime) -> Result<(), Fail> {
    let words = [
        0x1100_FFFF,
        0x2210_0001,
        0x3210_0000,
        0x4320_0001,
        0x9320_0000,
        0x5410_0000,
        0x9410_0001,
    ];
    let wants = [
        Want::Quiet,
        Want::Quiet,
        Want::Quiet,
        load(0x2_0000, 1),
        store(0x1_FFFF, 4, 0xF1),
        load(0xFFFF, 2),
        store(0x1_0000, 4, 0x32F1),
    ];
    core_plays(&rt, rt.alloc(), &words, 0xFEDC_BA98_F654_32F1, &wants)
}

#[test]
fn stores(rt: HostRuntime) -> Result<(), Fail> {
    let words = [0x6500_0002, 0x7500_0008, 0x8500_0008, 0x9500_0008];
    let wants = [
        load(2, 4),
        store(8, 1, 0xF1),
        store(8, 2, 0x32F1),
        store(8, 4, 0xF654_32F1),
    ];
    core_plays(&rt, rt.alloc(), &words, 0xFEDC_BA98_F654_32F1, &wants)
}

#[test]
fn sums_wrap(rt: HostRuntime) -> Result<(), Fail> {
    let words = [
        0x6100_0000,
        0x2210_0003,
        0x3110_0000,
        0x9210_0007,
        0x9100_0000,
    ];
    let wants = [
        load(0, 4),
        Want::Quiet,
        Want::Quiet,
        store(5, 4, 2),
        store(0, 4, 0xFFFF_FFFE),
    ];
    core_plays(&rt, rt.alloc(), &words, 0xFFFF_FFFF, &wants)
}

// The first jump goes on, the second leaves a store out, and the last goes past the words.
#[test]
fn jumps(rt: HostRuntime) -> Result<(), Fail> {
    let words = [
        0xA000_0003,
        0x1000_0003,
        0xA000_0004,
        0x7000_0000,
        0xA000_FFFF,
    ];
    core_plays(&rt, rt.alloc(), &words, 0, &[Want::Quiet; 4])
}

#[test]
fn other_ops_end(rt: HostRuntime) -> Result<(), Fail> {
    for word in [0, 0xB000_0000, 0xF000_0000] {
        core_plays(&rt, rt.alloc(), &[word, 0x7000_0000], 0, &[])?;
    }
    core_plays(&rt, rt.alloc(), &[], 0, &[])
}

#[test]
fn lists(rt: HostRuntime) -> Result<(), Fail> {
    let wants = [load(8, 4), store(8, 4, 7)];
    list_plays(&rt, rt.alloc(), &[listed(1), listed(2)], &wants)?;
    list_plays(
        &rt,
        rt.alloc(),
        &[listed(1), listed(2), listed(3), listed(1)],
        &wants,
    )
}

#[test]
fn lengths(rt: HostRuntime) {
    let heap = rt.alloc();
    assert!(rt; Core::new(heap, &[0; 1024]).is_ok());
    assert!(rt; matches!(Core::new(heap, &[0; 1025]), Err(ProgramRefusal::TooLong)));
    assert!(rt; AccessList::new(heap, &[listed(1); 1024]).is_ok());
    assert!(rt;
        matches!(
            AccessList::new(heap, &[listed(1); 1025]),
            Err(ProgramRefusal::TooLong)
        )
    );
    assert!(rt; u8::try_from(ProgramRefusal::TooLong) == Ok(2));
    assert!(rt; u8::try_from(ProgramRefusal::NoMemory(AllocError)).is_err());
}
