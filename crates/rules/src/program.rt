ghost use Rattle.std.specs.Prelude.{◌≡◌, ℕ, ◌^◌, ◌<◌, List};
ghost use Rattle.std.specs.List.{AllByRecursion};
ghost use Rattle.rules.specs.Program.{Behaviour, Lawful};

/// What a program does next. A quiet step does not access memory.
#[derive(Clone, Copy, Debug, PartialEq, Eq)]
pub enum Want {
    Quiet,
    Load { address: u32, size: u8 },
    Store { address: u32, size: u8, value: u64 },
    Ended,
}

/// A program, as recorder and player know it: by the numbers of its state and by how states follow one another.
pub trait Program {
    ghost state: { Self → List ℕ };

    ghost behaviour: { Behaviour };

    fn want(&self) -> Want
        ensures { result ≡ behaviour.want (state self.now) };

    /// Goes to the next state by the value that was loaded, or by 0.
    fn go(&mut self, value: u64)
        ensures { state self.new ≡ behaviour.next (state self.old) value };

    ghost below: { (p : Self) → AllByRecursion (λ n. n < 2 ^ 64) (state p) };

    ghost lawful: { Lawful behaviour };
}
