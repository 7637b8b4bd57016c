use crate::bounds::Run;
use moment_core::{Dir, Moment, Pos, Window};

/// Where a search stopped because its budget was used up, and which node of the set stopped it.
///
/// Node 0 is the search itself; the others are numbered from 1 at the root, each before its
/// children, left before right.
#[derive(Clone, Copy, Debug, PartialEq, Eq)]
pub struct Stop {
    pub at: Pos,
    pub node: u32,
}

/// What a search for the next change of a set answers.
#[derive(Clone, Copy, Debug, PartialEq, Eq)]
pub enum Answer {
    /// The nearest position of the calendar range whose membership differs.
    At(Pos),
    /// Nothing differs, for ever: the set repeats after this window, and nothing differs in it.
    None(Window),
    /// Nothing differs up to the end of the calendar range.
    Edge,
    /// The budget was used up.
    Budget(Stop),
}

/// Whether a position is a member.
#[derive(Clone, Copy, Debug, PartialEq, Eq)]
pub enum Test {
    In,
    Out,
    Budget(Stop),
}

/// Whether a window has no member.
#[derive(Clone, Copy, Debug, PartialEq, Eq)]
pub enum Audited {
    Clear,
    /// The least member of the window.
    Member(Pos),
    /// The budget was used up at this position, up to which the window has no member.
    Budget(Pos),
}

/// The place of a walk, from which it can be resumed.
#[derive(Clone, Copy, Debug, PartialEq, Eq)]
pub struct Token {
    pub dir: Dir,
    pub place: Pos,
    /// The first position, in the direction, of the run in which the walk stands.
    pub begun: Option<Pos>,
    pub end: Pos,
}

/// Why a walk has no further item.
#[derive(Clone, Copy, Debug, PartialEq, Eq)]
pub enum Why {
    /// The window's end was reached.
    To,
    /// Nothing follows, for ever.
    None(Window),
    /// Nothing follows up to the end of the calendar range.
    Edge,
}

/// The next item of a walk.
#[derive(Clone, Copy, Debug, PartialEq, Eq)]
pub enum Item {
    Run(Run),
    Done(Why),
    Budget(Token),
}

/// A neighbour of a moment.
#[derive(Clone, Copy, Debug, PartialEq, Eq)]
pub enum Near {
    Found(Run),
    None(Window),
    Edge,
    Budget(Stop),
}

/// The least or the greatest moment of a set.
#[derive(Clone, Copy, Debug, PartialEq, Eq)]
pub enum Extreme {
    At(Moment),
    Unbounded,
    None(Window),
    Edge,
    Budget(Stop),
}

/// A number of items or of seconds.
#[derive(Clone, Copy, Debug, PartialEq, Eq)]
pub enum Total {
    Number(u64),
    Infinite,
    Edge,
    Budget(Stop),
}

/// Whether a set is empty.
#[derive(Clone, Copy, Debug, PartialEq, Eq)]
pub enum Vacant {
    /// It has no member at all; nothing differs in this window, after which it repeats.
    Empty(Window),
    /// The least member of the calendar range.
    Member(Pos),
    /// It has no member in the calendar range, past which nothing is said.
    Edge,
    Budget(Stop),
}
