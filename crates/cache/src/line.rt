ghost use Rattle.std.specs.Prelude.{◌≡◌, if◌then◌else◌, Some};
ghost use Rattle.rules.specs.Bytes.{low_bytes, number_of, stretch};
ghost use Rattle.rules.specs.Cache.{all_flagged, flagged_line, overwritten, new_line, refreshed, staled, region_flagged, read_in, stored_in, known_by};

use crate::access::Access;
use crate::shape::Shape;
use crate::stretch::Stretch;
use rules::cache::{BlockBytes, Line};

/// The number in a part of a line, lowest byte first.
pub(crate) fn read(line: &Line, part: Stretch) -> u64
    ensures { result ≡ number_of (stretch part.from part.size line.now.bytes) }
{
    let mut bytes = [0; 8];
    bytes[..part.size].copy_from_slice(&line.bytes[part.range()]);
    u64::from_le_bytes(bytes)
}

/// Writes the low bytes of a value over a part of a line.
pub(crate) fn write(line: &mut Line, part: Stretch, value: u64)
    ensures { line.new ≡ overwritten part.from (low_bytes part.size value) line.old }
{
    let bytes = value.to_le_bytes();
    line.bytes[part.range()].copy_from_slice(&bytes[..part.size]);
}

/// A line that is new for a block.
pub(crate) fn new_line(block: u32, fill: &BlockBytes) -> Line
    ensures { result ≡ new_line fill.now block }
{
    Line {
        block,
        bytes: *fill,
        flags: [false; 16],
        stale: false,
    }
}

/// A stale line takes the fill, and loses its flags and mark.
pub(crate) fn refresh(line: &mut Line, fill: &BlockBytes)
    ensures { line.new ≡ refreshed fill.now line.old }
{
    if line.stale {
        *line = new_line(line.block, fill);
    }
}

pub(crate) fn make_stale(line: &mut Line)
    ensures { line.new ≡ staled line.old }
{
    line.flags = [false; 16];
    line.stale = true;
}

// What the settings have a say in. It stands here, since these are things done to a line.
impl Shape {
    /// Whether every granule that lies whole in a part of a line has its flag.
    pub(crate) fn is_flagged(self, line: &Line, part: Stretch) -> bool
        ensures { result ≡ all_flagged self.settings.granule part.from part.size 0 line.now.flags }
    {
        // A `for`, not `all`: that this loop decides whether a load is known is a rule of the project.
        for &flag in &line.flags[self.granules(part)] {
            if !flag {
                return false;
            }
        }
        true
    }

    /// Flags the granules that lie whole in a part of a line.
    pub(crate) fn flag(self, line: &mut Line, part: Stretch)
        ensures { line.new ≡ flagged_line self.settings part.from part.size line.old }
    {
        line.flags[self.granules(part)].fill(true);
    }

    /// Whether a load is known by the line of its block.
    pub(crate) fn is_known(self, line: &Line, access: Access) -> bool
        ensures { result ≡ known_by self.settings access.address access.size (Some line.now) }
    {
        !line.stale && self.is_flagged(line, self.region(access))
    }

    /// What a load does to the line that has come forward, and the value that it reads. Whether it is known was asked
    /// before anything moved.
    pub(crate) fn take_load(self, line: &mut Line, access: Access, known: bool) -> u64
        ensures after { line.new
            ≡ (if known then (λ l. l) else region_flagged self.settings access.address access.size) line.old }
        ensures value { result ≡ read_in access.address access.size line.old }
    {
        if !known {
            self.flag(line, self.region(access));
        }
        read(line, access.stretch())
    }

    pub(crate) fn take_store(self, line: &mut Line, access: Access, value: u64)
        ensures { line.new ≡ stored_in self.settings access.address access.size value line.old }
    {
        write(line, access.stretch(), value);
        self.flag(line, access.stretch());
    }
}
