ghost use Rattle.std.specs.Prelude.{◌≡◌, ◌%◌, ◌^◌};
ghost use Rattle.programs.specs.Instruction.{size_bytes, op_numbered, instruction_of};

use crate::register::Register;

/// How many bytes a load or a store moves.
#[derive(Clone, Copy, Debug, PartialEq, Eq)]
pub enum Size {
    One,
    Two,
    Four,
}

impl Size {
    pub(crate) fn bytes(self) -> u8
        ensures { result ≡ size_bytes self }
    {
        match self {
            Size::One => 1,
            Size::Two => 2,
            Size::Four => 4,
        }
    }

    /// The value's low bytes.
    pub(crate) fn low(self, value: u64) -> u32
        ensures { result ≡ value % 256 ^ size_bytes self }
    {
        (value % (1 << (8 * self.bytes()))) as u32
    }
}

/// What a word does. `Other` is every op but 1 to 10, and ends the program.
#[derive(Clone, Copy, Debug, PartialEq, Eq)]
pub enum Op {
    Constant,
    AddConstant,
    AddRegister,
    Load(Size),
    Store(Size),
    Jump,
    Other,
}

impl From<u32> for Op {
    ghost from_gives = { λ number op. op ≡ op_numbered number };

    fn from(number: u32) -> Op {
        match number {
            1 => Op::Constant,
            2 => Op::AddConstant,
            3 => Op::AddRegister,
            4 => Op::Load(Size::One),
            5 => Op::Load(Size::Two),
            6 => Op::Load(Size::Four),
            7 => Op::Store(Size::One),
            8 => Op::Store(Size::Two),
            9 => Op::Store(Size::Four),
            10 => Op::Jump,
            _ => Op::Other,
        }
    }
}

/// A word taken apart: as decoded, `k` is below 2^16.
#[derive(Clone, Copy)]
pub struct Instruction {
    pub op: Op,
    pub d: Register,
    pub s: Register,
    pub k: u32,
}

impl From<u32> for Instruction {
    ghost from_gives = { λ word i. i ≡ instruction_of word };

    fn from(word: u32) -> Instruction {
        Instruction {
            op: Op::from(word >> 28),
            d: Register::from(word >> 24),
            s: Register::from(word >> 20),
            k: word % 0x1_0000,
        }
    }
}
