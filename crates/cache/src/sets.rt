ghost use Rattle.std.specs.Prelude.{◌≡◌, ◌*◌, ◌%◌, ◌<◌, ◌≤◌, map, length, vec_len, IfOk};
ghost use Rattle.std.specs.Option.{option_map};
ghost use Rattle.std.specs.List.{All};
ghost use Rattle.cache.specs.Recency.{recent};

use crate::access::Access;
use crate::line::{make_stale, new_line, refresh};
use crate::recency::Recency;
use crate::shape::Shape;
use crate::table::Table;
use rules::cache::{BlockBytes, Line};
use std::alloc::{AllocError, Global};

/// A first-access cache. Each set has its order of use, and its lines lie in the table.
// Why table and orders stand apart is said at `Table`.
#[derive(Drop)]
pub struct Cache {
    shape: Shape,
    table: Table,
    orders: Vec<Recency>,
    ghost many: { vec_len orders ≡ shape.settings.sets },
    ghost room: { vec_len table.lines ≡ 4 * vec_len orders },
    ghost few: { All (λ order. length (recent order) ≤ shape.settings.ways) orders.items },
}

impl Cache {
    ghost use Rattle.rules.specs.Cache.{is_load_known, loaded_value, load as load_of, store as store_of, invalidate as invalidate_of};
    ghost use Rattle.rules.specs.CacheLaws.{blocks_in, CacheLaws};
    ghost use Rattle.cache.specs.View.{settings_of, sets_of, IsEmpty, Does};

    /// An empty cache. The laws speak of any operations on it; each call below is one.
    #[tactic(auto, using(rules::proofs::CacheLaws::cache_laws))]
    pub fn new(heap: Global, shape: Shape) -> Result<Cache, AllocError>
        ensures empty { IfOk result (IsEmpty shape.settings) }
        ensures laws { CacheLaws shape.settings }
    {
        let sets = shape.settings().sets as usize;
        let lines = vec![in heap; new_line(0, &[0; 16]); 4 * sets]?;
        let orders = vec![in heap; Recency::new(); sets]?;
        Ok(Cache {
            shape,
            table: Table { lines },
            orders,
        })
    }

    /// Whether a load is known, as asked before it is done.
    pub fn known(&self, access: Access) -> bool
        ensures { result ≡ is_load_known (settings_of self.now) access.address access.size (sets_of self.now) }
    {
        self.line_of(access.block())
            .is_some_and(|line| self.shape.is_known(line, access))
    }

    /// The value of a load. The fill is what the line takes if its block is absent or stale.
    pub fn load(&mut self, access: Access, fill: &BlockBytes) -> u64
        ensures cache { Does (load_of fill.now access.address access.size) self.old self.new }
        ensures value { result
            ≡ loaded_value (settings_of self.old) fill.now access.address access.size (sets_of self.old) }
    {
        let known = self.known(access);
        let shape = self.shape;
        let slot = self.bring_forward(access.block(), fill);
        shape.take_load(self.table.line_mut(slot), access, known)
    }

    /// Writes the value's low bytes to the line. The fill is what the line takes if its block is absent or stale.
    pub fn store(&mut self, access: Access, value: u64, fill: &BlockBytes)
        ensures { Does (store_of fill.now access.address access.size value) self.old self.new }
    {
        let shape = self.shape;
        let slot = self.bring_forward(access.block(), fill);
        shape.take_store(self.table.line_mut(slot), access, value);
    }

    /// Marks the address's line stale, if there is one. It keeps its place in the order of use.
    pub fn invalidate(&mut self, address: u32)
        ensures cache { Does (invalidate_of address) self.old self.new }
        ensures order { map blocks_in (sets_of self.new) ≡ map blocks_in (sets_of self.old) }
    {
        if let Some(found) = self.find(address / 16) {
            make_stale(self.table.line_mut(found.slot));
        }
    }
}

/// A line's place in the order of use of its set, and its slot in the table.
#[derive(Clone, Copy)]
pub(crate) struct Found {
    pub(crate) place: usize,
    pub(crate) slot: usize,
}

impl Cache {
    ghost use Rattle.rules.specs.Cache.{first, holds};
    ghost use Rattle.cache.specs.Lookup.{AbsentBelow, block_set, Lies, Finds, ComesForward, Brings};
    ghost use Rattle.cache.specs.View.{settings_of};

    fn set_of(&self, block: u32) -> usize
        ensures is { result ≡ block % (settings_of self.now).sets }
        ensures inside { result < vec_len self.now.orders }
    {
        block as usize % self.shape.settings().sets as usize
    }

    pub(crate) fn find(&self, block: u32) -> Option<Found>
        ensures { Finds block self.now result }
    {
        let set = self.set_of(block);
        let order = self.orders[set];
        // A `for`: the order of use stands behind functions, so there is no slice of it to search. Tried as a chain over
        // its places: the calls of the closures stayed unproved.
        for place in 0..order.used() {
            let slot = 4 * set + order.way(place);
            if self.table.line(slot).block == block {
                return Some(Found { place, slot });
            }
        }
        None
    }

    // A line in use comes forward.
    fn touch(&mut self, block: u32, found: Found)
        requires { Lies block self.old found.place found.slot }
        ensures { ComesForward block self.old self.new found.slot }
    {
        let set = self.set_of(block);
        self.orders[set].promote(found.place);
    }

    // A slot comes forward for a block that the set lacks; a full set drops its last line.
    fn enter(&mut self, block: u32) -> usize
        requires { AbsentBelow block (block_set block self.old) (length (block_set block self.old)) }
        ensures { ComesForward block self.old self.new result }
    {
        let set = self.set_of(block);
        let ways = self.shape.settings().ways;
        4 * set + self.orders[set].enter(ways)
    }

    /// The block's line comes forward, filled if it has to be. The answer is its slot.
    pub(crate) fn bring_forward(&mut self, block: u32, fill: &BlockBytes) -> usize
        ensures { Brings block fill.now self.old self.new result }
    {
        match self.find(block) {
            Some(found) => {
                self.touch(block, found);
                refresh(self.table.line_mut(found.slot), fill);
                found.slot
            }
            None => {
                let slot = self.enter(block);
                *self.table.line_mut(slot) = new_line(block, fill);
                slot
            }
        }
    }

    pub(crate) fn line_of(&self, block: u32) -> Option<&Line>
        ensures { option_map (λ x. x.now) result ≡ first (holds block) (block_set block self.now) }
    {
        let found = self.find(block)?;
        Some(self.table.line(found.slot))
    }
}
