ghost use Rattle.std.specs.Prelude.{◌≡◌, ◌^◌, ◌<◌, ◌≤◌, All, length, vec_len};
ghost use Rattle.std.specs.List.{flat_map};
ghost use Rattle.std.proofs.Common.{rules};
ghost use Rattle.std.proofs.lemmas.List.Elements.{recursion_from_All};
ghost use Rattle.rules.specs.Views.{on_ok};
ghost use Rattle.programs.specs.ListedAccess.{numbers_of};
ghost use Rattle.programs.specs.Making.{Makes, longest};

use crate::refusal::{ProgramRefusal, copied};
use rules::program::{Program, Want};
use std::alloc::Global;

const LOAD: u8 = 1;

const STORE: u8 = 2;

/// Kind 1 is a load and kind 2 a store; a list ends at an access of any other kind.
#[derive(Clone, Copy)]
pub struct ListedAccess {
    // No enum: the state tells each kind's number, and a case for the others would have to leave out 1 and 2.
    pub kind: u8,
    pub address: u32,
    pub size: u8,
    pub value: u64,
}

// Kind 0 is neither, so being past the last access needs no case of its own.
const PAST: ListedAccess = ListedAccess {
    kind: 0,
    address: 0,
    size: 0,
    value: 0,
};

/// Wants its accesses one after the other, up to the first of another kind, and keeps the value loaded last.
// Ghost fields, not a model: the laws below read them from the value.
#[derive(Drop)]
pub struct AccessList {
    accesses: Vec<ListedAccess>,
    place: usize,
    last: u64,
    ghost few: { vec_len accesses ≤ longest },
    ghost place64: { place < 2 ^ 64 },
    ghost last64: { last < 2 ^ 64 },
    ghost numbers64: { All (λ n. n < 2 ^ 64) (flat_map numbers_of accesses.items) },
}

impl AccessList {
    ghost use Rattle.programs.specs.AccessList.{list_state, state_of, access_at, ListRuns};

    #[tactic(auto, using(crate::proofs::AccessListLaws::list_wants, crate::proofs::AccessListLaws::list_moves))]
    pub fn new(heap: Global, accesses: &[ListedAccess]) -> Result<AccessList, ProgramRefusal>
        ensures made { Makes (length accesses.now) (list_state 0 0 accesses.now) (on_ok state_of result) }
        ensures runs { ListRuns accesses.now }
    {
        let accesses = copied(heap, accesses)?;
        holds_numbers(accesses.as_slice());
        Ok(AccessList {
            accesses,
            place: 0,
            last: 0,
        })
    }

    // The access at the place, and `PAST` past the last.
    fn access(&self) -> ListedAccess
        ensures inside { 0 < result.kind → self.now.place < vec_len self.now.accesses }
        ensures value { result ≡ access_at (state_of self.now) }
    {
        self.accesses.get(self.place).copied().unwrap_or(PAST)
    }
}

impl Program for AccessList {
    ghost use Rattle.programs.specs.AccessList.{state_of, list_behaviour};

    ghost state = { state_of };

    ghost behaviour = { list_behaviour };

    ghost below = { λ p. (p.place64, (p.last64, recursion_from_All _ _ p.numbers64)) };

    ghost lawful = { Prim.search rules };

    fn want(&self) -> Want {
        let access = self.access();
        match access.kind {
            LOAD => Want::Load {
                address: access.address,
                size: access.size,
            },
            STORE => Want::Store {
                address: access.address,
                size: access.size,
                value: access.value,
            },
            _ => Want::Ended,
        }
    }

    fn go(&mut self, value: u64) {
        match self.access().kind {
            LOAD => {
                self.place += 1;
                self.last = value;
            }
            STORE => self.place += 1,
            _ => {}
        }
    }
}

// Changes nothing: a proof knows that the numbers of an access are below 2^64 only where that access is used. Tried
// without: the elements of a slice of structs have no ranges of their own.
#[tactic(auto, using(crate::proofs::Numbers::below_more))]
fn holds_numbers(accesses: &[ListedAccess])
    ensures { All (λ n. n < 2 ^ 64) (flat_map numbers_of accesses.now) }
{
    for access in accesses {
        let access = *access;
        prove!(access.value <= u64::MAX);
    }
}
