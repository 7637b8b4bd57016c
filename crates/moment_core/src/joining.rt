/// How two sets are joined into one: the union, the intersection or the difference of set algebra.
#[derive(Clone, Copy, Debug, PartialEq, Eq)]
pub enum Op {
    /// The positions of either set.
    Union,
    /// The positions of both sets.
    Meet,
    /// The positions of the first set that the second doesn't have.
    Minus,
}

/// What is made of one set.
#[derive(Clone, Copy, Debug, PartialEq, Eq)]
pub enum UnaryOp {
    /// The positions that the set doesn't have.
    Not,
    /// From each moment of the set the positions of so many seconds.
    During(i64),
    /// The moments at which the runs of the set begin, closed or open.
    Starts,
    /// The moments at which they end, closed or open.
    Ends,
    /// The positions of the set, so many seconds later.
    Shift(i64),
}
