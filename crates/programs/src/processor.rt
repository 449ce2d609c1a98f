ghost use Rattle.std.specs.Prelude.{◌≡◌, ◌+◌, ◌^◌, ◌<◌, ◌≤◌, All, length, replicate, vec_len};
ghost use Rattle.std.proofs.Common.{rules};
ghost use Rattle.std.proofs.lemmas.List.Elements.{All-append, recursion_from_All};
ghost use Rattle.rules.specs.Views.{on_ok};
ghost use Rattle.programs.specs.Making.{Makes, longest};

use crate::instruction::{Instruction, Op};
use crate::refusal::{ProgramRefusal, copied};
use crate::register::Register;
use rules::program::{Program, Want};
use std::alloc::Global;

/// Does the word at its place, from word 0 on.
// Ghost fields, not a model: the laws below read them from the value.
#[derive(Drop)]
pub struct Core {
    place: usize,
    registers: [u32; 8],
    words: Vec<u32>,
    ghost few: { vec_len words ≤ longest },
    ghost place64: { place < 2 ^ 64 },
    ghost eight: { length registers ≡ 8 },
    ghost registers64: { All (λ n. n < 2 ^ 64) registers },
    ghost words64: { All (λ n. n < 2 ^ 64) words.items },
}

impl Core {
    ghost use Rattle.programs.specs.Core.{core_state, state_of, register_at, word_at, address_by, with_number, next_by, CoreRuns};

    #[tactic(auto, using(crate::proofs::CoreLaws::core_runs))]
    pub fn new(heap: Global, words: &[u32]) -> Result<Core, ProgramRefusal>
        ensures made { Makes (length words.now) (core_state 0 (replicate 8 0) words.now) (on_ok state_of result) }
        ensures runs { CoreRuns words.now }
    {
        Ok(Core {
            place: 0,
            registers: [0; 8],
            words: copied(heap, words)?,
        })
    }

    // The word at the place, and 0 past the words.
    #[tactic(auto, using(crate::proofs::Registers::word_is))]
    fn word(&self) -> u32
        ensures { result ≡ word_at (state_of self.now) }
    {
        self.words.get(self.place).copied().unwrap_or(0)
    }

    #[tactic(auto, using(crate::proofs::Registers::register_is))]
    fn register(&self, i: Register) -> u32
        ensures { result ≡ register_at (state_of self.now) i }
    {
        self.registers[i.number()]
    }

    // Moves on to the next word, with the number in register `d`.
    #[tactic(auto, using(crate::proofs::Registers::number_is))]
    fn put(&mut self, d: Register, number: u32)
        requires { self.old.place + 1 < 2 ^ 64 }
        ensures { state_of self.new ≡ with_number d number (state_of self.old) }
    {
        self.place += 1;
        self.registers[d.number()] = number;
    }

    fn address(&self, i: &Instruction) -> u32
        ensures { result ≡ address_by i.now (state_of self.now) }
    {
        self.register(i.s).wrapping_add(i.k)
    }

    // Does what the instruction asks; `value` is what a load gets.
    fn follow(&mut self, i: Instruction, value: u64)
        requires { self.old.place + 1 < 2 ^ 64 }
        ensures { state_of self.new ≡ next_by i.op i value (state_of self.old) }
    {
        match i.op {
            Op::Constant => self.put(i.d, i.k),
            Op::AddConstant => self.put(i.d, self.address(&i)),
            Op::AddRegister => self.put(i.d, self.register(i.d).wrapping_add(self.register(i.s))),
            Op::Load(size) => self.put(i.d, size.low(value)),
            Op::Store(_) => self.place += 1,
            Op::Jump => self.place = if self.register(i.d) == 0 {
                self.place + 1
            } else {
                i.k as usize
            },
            Op::Other => {}
        }
    }
}

impl Program for Core {
    ghost use Rattle.programs.specs.Core.{state_of, core_behaviour};

    ghost state = { state_of };

    ghost behaviour = { core_behaviour };

    ghost below = { λ p. (p.place64, recursion_from_All _ _ (All-append (λ n. n < 2 ^ 64) _ _ p.registers64 p.words64)) };

    ghost lawful = { Prim.search rules };

    fn want(&self) -> Want {
        let i = Instruction::from(self.word());
        match i.op {
            Op::Constant | Op::AddConstant | Op::AddRegister | Op::Jump => Want::Quiet,
            Op::Load(size) => Want::Load {
                address: self.address(&i),
                size: size.bytes(),
            },
            Op::Store(size) => Want::Store {
                address: self.address(&i),
                size: size.bytes(),
                value: u64::from(size.low(u64::from(self.register(i.d)))),
            },
            Op::Other => Want::Ended,
        }
    }

    #[tactic(auto, using(crate::proofs::Registers::past_stays))]
    fn go(&mut self, value: u64) {
        if self.place < self.words.len() {
            let i = Instruction::from(self.word());
            self.follow(i, value);
        }
    }
}
