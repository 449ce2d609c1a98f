/// How many sets a cache has, how many lines a set has at most, and how many bytes share a flag.
#[derive(Clone, Copy, Debug, PartialEq, Eq)]
pub struct Settings {
    pub sets: u32,
    pub ways: u32,
    pub granule: u32,
}

/// The bytes of a block.
pub type BlockBytes = [u8; 16];

/// A line of the cache, for a block of 16 bytes. Flag q is that of the granule q; there are 16 / granule of them.
#[derive(Clone, Copy)]
pub struct Line {
    pub block: u32,
    pub bytes: BlockBytes,
    pub flags: [bool; 16],
    pub stale: bool,
}
