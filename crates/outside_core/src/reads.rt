/// What a read gave.
#[derive(Clone, Copy, Debug, PartialEq, Eq)]
pub enum Got {
    /// So many bytes, one at least, at the front of the buffer.
    Bytes(usize),
    /// Nothing, since no byte is left.
    End,
    /// Nothing, since the read failed.
    Failed,
}

/// Where bytes come from.
pub trait Source {
    ghost use Rattle.std.specs.Prelude.{ℕ, List, Option, ◌<◌, ◌≤◌, length};
    ghost use Rattle.outside_core.specs.Outside.{Rose, Reads, IfReadFailed};

    /// The bytes left, where the source tells them.
    ghost left: { Self → Option (List ℕ) };

    /// How many faults there were. A count at 2^64 - 1, the last value, counts as risen.
    ghost faults: { Self → ℕ };

    /// Moves the next bytes to the front of the buffer: some, unless none is left or the read
    /// fails.
    ///
    /// What stands behind them in the buffer is left open.
    fn read(&mut self, buf: &mut [u8]) -> Got
        requires { 0 < length buf.old }
        ensures bytes { Reads (left self.old) (left self.new) buf.new result }
        ensures failed { IfReadFailed result (Rose (faults self.old) (faults self.new)) }
        ensures counted { faults self.old ≤ faults self.new };
}
