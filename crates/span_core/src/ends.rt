ghost use Rattle.std.specs.Prelude.{◌≡◌, ◌↔◌, ℤ, IsTrue};
ghost use Rattle.moment_core.specs.Line.{IsCalendarPosition};
ghost use Rattle.moment_core.specs.Sets.{ahead, IsUpTo, range_begin, range_end};

use moment_core::{Dir, HIGH, LOW, Pos};

/// Whether the position isn't past the end, in the direction.
pub fn is_up_to(dir: Dir, end: Pos, q: Pos) -> bool
    ensures { IsTrue result ↔ IsUpTo dir end.0 q.0 }
{
    match dir {
        Dir::Fore => q <= end,
        Dir::Back => end <= q,
    }
}

/// The calendar range's own last position in the direction.
pub fn range_end(dir: Dir) -> Pos
    ensures value { result.0 ≡ range_end dir }
    ensures in_range { IsCalendarPosition result.0 }
    ensures last { (p : ℤ) → IsCalendarPosition p → IsUpTo dir result.0 p }
{
    match dir {
        Dir::Fore => Pos(2 * HIGH),
        Dir::Back => Pos(2 * LOW),
    }
}

/// The calendar range's own first position in the direction.
pub fn range_begin(dir: Dir) -> Pos
    ensures { result.0 ≡ range_begin dir }
{
    match dir {
        Dir::Fore => Pos(2 * LOW),
        Dir::Back => Pos(2 * HIGH),
    }
}

/// The position right past a position of the range, in the direction.
pub fn one_on(dir: Dir, q: Pos) -> Pos
    requires { IsCalendarPosition q.0 }
    ensures { result.0 ≡ ahead dir q.0 1 }
{
    match dir {
        Dir::Fore => Pos(q.0 + 1),
        Dir::Back => Pos(q.0 - 1),
    }
}

/// The position right before a position of the range, in the direction.
pub fn one_back(dir: Dir, q: Pos) -> Pos
    requires { IsCalendarPosition q.0 }
    ensures { ahead dir result.0 1 ≡ q.0 }
{
    match dir {
        Dir::Fore => Pos(q.0 - 1),
        Dir::Back => Pos(q.0 + 1),
    }
}
