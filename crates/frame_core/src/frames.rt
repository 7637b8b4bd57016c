ghost use Rattle.std.specs.Prelude.{◌≡◌, ◌*◌, ℤ, pos, ◌+ℤ◌, ◌-ℤ◌, Bool, IfSome};
ghost use Rattle.std.specs.Int.{int_max, int_min};
ghost use Rattle.frame_core.specs.Frames.{IsPeriod, Repeats, in_calendar, join_of, window_after};

use crate::periods::least_common;
use moment_core::{Dir, HIGH, LOW, Pos, Window};

/// The first position of the calendar range.
const FIRST: i64 = 2 * LOW;

/// The last position of the calendar range.
const LAST: i64 = 2 * HIGH;

/// From where on a set of positions repeats: from `hi` upwards and from `lo` downwards, after
/// `period` seconds.
///
/// A period is from 1 second to `WIDTH`; the functions ask for it.
#[derive(Clone, Copy, Debug, PartialEq, Eq)]
pub struct Frame {
    pub lo: Pos,
    pub hi: Pos,
    pub period: u64,
}

/// The frame of two sets together: the greater `hi`, the lesser `lo` and the least common period.
/// None exactly where that period is above `WIDTH`.
pub fn join(a: Frame, b: Frame) -> Option<Frame>
    requires a { IsPeriod a.period }
    requires b { IsPeriod b.period }
    ensures value { result ≡ join_of a b }
    ensures period { IfSome result (λ joined. IsPeriod joined.period) }
    ensures repeats { IfSome result (λ joined. (f g : ℤ → Bool) (op : Bool → Bool → Bool) →
        Repeats f a → Repeats g b → Repeats (λ p. op (f p) (g p)) joined) }
{
    let period = least_common(a.period, b.period)?;
    Some(Frame {
        lo: lesser(a.lo, b.lo),
        hi: greater(a.hi, b.hi),
        period,
    })
}

/// The window of one period past `p`, and past where the set begins to repeat, that a search for
/// the next change ends with. None exactly where it leaves the calendar range.
pub fn window(f: Frame, p: Pos, dir: Dir) -> Option<Window>
    requires { IsPeriod f.period }
    ensures { result ≡ window_after f dir p.0 }
{
    match dir {
        Dir::Fore => window_from(greater(p, f.hi), f.period),
        Dir::Back => window_up_to(lesser(p, f.lo), f.period),
    }
}

/// The window of one period from `lo` upwards, or None where it leaves the calendar range.
fn window_from(lo: Pos, period: u64) -> Option<Window>
    requires { IsPeriod period }
    ensures { result ≡ in_calendar lo.0 (lo.0 +ℤ pos (2 * period)) }
{
    let length = 2 * period as i64;
    if FIRST <= lo.0 && lo.0 <= LAST - length {
        Some(Window {
            lo,
            hi: Pos(lo.0 + length),
        })
    } else {
        None
    }
}

/// The window of one period from `hi` downwards, or None where it leaves the calendar range.
fn window_up_to(hi: Pos, period: u64) -> Option<Window>
    requires { IsPeriod period }
    ensures { result ≡ in_calendar (hi.0 -ℤ pos (2 * period)) hi.0 }
{
    let length = 2 * period as i64;
    if FIRST + length <= hi.0 && hi.0 <= LAST {
        Some(Window {
            lo: Pos(hi.0 - length),
            hi,
        })
    } else {
        None
    }
}

fn lesser(a: Pos, b: Pos) -> Pos
    ensures { result.0 ≡ int_min a.0 b.0 }
{
    if b < a { b } else { a }
}

fn greater(a: Pos, b: Pos) -> Pos
    ensures { result.0 ≡ int_max a.0 b.0 }
{
    if b < a { a } else { b }
}
