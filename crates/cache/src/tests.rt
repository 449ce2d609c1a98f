use crate::access::Access;
use crate::sets::Cache;
use crate::shape::Shape;
use rules::cache::Settings;
use std::alloc::Global;
use std::process::Abort;
use std::test::Fail;

const MEMORY: usize = 64;

fn shape(sets: u32, ways: u32, granule: u32) -> Option<Shape> {
    Shape::new(Settings {
        sets,
        ways,
        granule,
    })
}

fn cache(heap: Global, ways: u32, granule: u32) -> Result<Cache, Fail> {
    let shape = shape(1, ways, granule).ok_or_else(|| Fail::new("refused"))?;
    Ok(Cache::new(heap, shape)?)
}

fn access(address: u32, size: u8) -> Result<Access, Fail> {
    Access::new(address, size, MEMORY).ok_or_else(|| Fail::new("improper"))
}

// Loads from a memory whose bytes are all `byte`, and answers whether the load was known.
fn load(
    rt: &impl Abort,
    cache: &mut Cache,
    address: u32,
    size: u8,
    byte: u8,
    value: u64,
) -> Result<bool, Fail> {
    let access = access(address, size)?;
    let known = cache.known(access);
    assert_eq!(rt; cache.load(access, &[byte; 16]), value);
    Ok(known)
}

#[test]
fn proper_accesses(rt: HostRuntime) {
    for (address, size) in [(0, 0), (0, 3), (0, 16), (2, 4), (64, 1), (60, 8), (63, 2)] {
        assert!(rt; Access::new(address, size, MEMORY).is_none());
    }
    for (address, size) in [(63, 1), (62, 2), (60, 4), (56, 8)] {
        assert!(rt; Access::new(address, size, MEMORY).is_some());
    }
    assert!(rt; Access::new(u32::MAX - 7, 8, MEMORY).is_none());
}

#[test]
fn proper_settings(rt: HostRuntime) {
    for (sets, ways, granule) in [
        (0, 1, 1),
        (3, 1, 1),
        (32, 1, 1),
        (1, 0, 1),
        (1, 3, 1),
        (1, 8, 1),
        (1, 1, 0),
        (1, 1, 16),
    ] {
        assert!(rt; shape(sets, ways, granule).is_none());
    }
    for (sets, ways, granule) in [(1, 1, 1), (16, 4, 8), (8, 2, 4), (2, 4, 2), (4, 1, 1)] {
        assert!(rt; shape(sets, ways, granule).is_some());
    }
}

// Loads of the bytes 0, 16, 0 in one set: with one way all three are sent, with two the last is known.
#[test]
fn one_way_and_two(rt: HostRuntime) -> Result<(), Fail> {
    for ways in [1, 2] {
        let mut cache = cache(rt.alloc(), ways, 1)?;
        assert!(rt; !load(&rt, &mut cache, 0, 1, 7, 7)?);
        assert!(rt; !load(&rt, &mut cache, 16, 1, 7, 7)?);
        assert_eq!(rt; load(&rt, &mut cache, 0, 1, 7, 7)?, ways == 2);
    }
    Ok(())
}

// A full set drops the line that was used longest ago.
#[test]
fn last_is_dropped(rt: HostRuntime) -> Result<(), Fail> {
    let mut cache = cache(rt.alloc(), 2, 1)?;
    for address in [0, 16, 0, 32] {
        load(&rt, &mut cache, address, 1, 7, 7)?;
    }
    assert!(rt; cache.known(access(0, 1)?));
    assert!(rt; cache.known(access(32, 1)?));
    assert!(rt; !cache.known(access(16, 1)?));
    Ok(())
}

// A load flags its whole region; a store flags only what it covers whole, and leaves other flags.
#[test]
fn granules_of_four(rt: HostRuntime) -> Result<(), Fail> {
    let mut cache = cache(rt.alloc(), 1, 4)?;
    assert!(rt; !load(&rt, &mut cache, 5, 1, 7, 7)?);
    assert!(rt; load(&rt, &mut cache, 4, 4, 9, 0x0707_0707)?);
    cache.store(access(9, 1)?, 0x12AB, &[9; 16]);
    assert!(rt; !cache.known(access(9, 1)?));
    cache.store(access(12, 4)?, 0x1_2345_6789, &[9; 16]);
    assert!(rt; load(&rt, &mut cache, 14, 1, 9, 0x45)?);
    cache.store(access(6, 2)?, 0xBEEF, &[9; 16]);
    assert!(rt; load(&rt, &mut cache, 4, 4, 9, 0xBEEF_0707)?);
    assert!(rt; !load(&rt, &mut cache, 8, 8, 9, 0x2345_6789_0707_AB07)?);
    Ok(())
}

// A stale line is not known, keeps its place, and is filled anew when it is used.
#[test]
fn stale_lines(rt: HostRuntime) -> Result<(), Fail> {
    let mut cache = cache(rt.alloc(), 2, 1)?;
    for address in [0, 16] {
        load(&rt, &mut cache, address, 1, 7, 7)?;
    }
    cache.invalidate(15);
    cache.invalidate(48);
    assert!(rt; load(&rt, &mut cache, 16, 1, 7, 7)?);
    assert!(rt; !load(&rt, &mut cache, 0, 1, 9, 9)?);
    assert!(rt; load(&rt, &mut cache, 0, 1, 7, 9)?);
    assert!(rt; !cache.known(access(1, 1)?));
    cache.invalidate(0);
    load(&rt, &mut cache, 32, 1, 7, 7)?;
    assert!(rt; !cache.known(access(16, 1)?));
    Ok(())
}
