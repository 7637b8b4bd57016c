/// What a write took.
#[derive(Clone, Copy, Debug, PartialEq, Eq)]
pub enum Put {
    /// The whole piece.
    All,
    /// So many of its first bytes, and then the write failed.
    Failed(usize),
}

/// Where bytes go to.
pub trait Sink {
    ghost use Rattle.std.specs.Prelude.{ℕ, List, Option, ◌≤◌};
    ghost use Rattle.outside_core.specs.Outside.{Rose, Writes, IfWriteFailed};

    /// The bytes taken, where the sink tells them.
    ghost taken: { Self → Option (List ℕ) };

    /// How many faults there were. A count at 2^64 - 1, the last value, counts as risen.
    ghost faults: { Self → ℕ };

    /// Takes the piece, or its first bytes where the write fails.
    fn write(&mut self, piece: &[u8]) -> Put
        ensures bytes { Writes (taken self.old) (taken self.new) piece.now result }
        ensures failed { IfWriteFailed result (Rose (faults self.old) (faults self.new)) }
        ensures counted { faults self.old ≤ faults self.new };
}
