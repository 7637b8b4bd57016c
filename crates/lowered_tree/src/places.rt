ghost use Rattle.std.specs.Prelude.{◌≡◌, ◌≤◌, ◌^◌, unsigned_abs, pos, ◌+ℤ◌, ◌-ℤ◌, ◌≤ℤ◌};
ghost use Rattle.std.specs.Int.{int_max, int_min};
ghost use Rattle.moment_core.specs.Line.{position_of};
ghost use Rattle.moment_core.specs.declared.line.TheConstants.{HIGH, LOW, REACH};

use moment_core::Pos;

/// The position so many seconds later.
pub fn later(p: Pos, seconds: i64) -> Pos
    requires p { unsigned_abs p.0 ≤ 2 ^ 60 }
    requires seconds { unsigned_abs seconds ≤ 2 ^ 60 }
    ensures { result.0 ≡ p.0 +ℤ position_of seconds }
{
    Pos(p.0 + 2 * seconds)
}

/// The position so many seconds earlier.
pub fn earlier(p: Pos, seconds: i64) -> Pos
    requires p { unsigned_abs p.0 ≤ 2 ^ 60 }
    requires seconds { unsigned_abs seconds ≤ 2 ^ 60 }
    ensures { result.0 ≡ p.0 -ℤ position_of seconds }
{
    Pos(p.0 - 2 * seconds)
}

/// The position right above.
pub fn one_after(p: Pos) -> Pos
    requires { p.0 ≤ℤ position_of (HIGH +ℤ REACH) }
    ensures { result.0 ≡ p.0 +ℤ pos 1 }
{
    Pos(p.0 + 1)
}

/// The position right below.
pub fn one_before(p: Pos) -> Pos
    requires { position_of (LOW -ℤ REACH) ≤ℤ p.0 }
    ensures { result.0 ≡ p.0 -ℤ pos 1 }
{
    Pos(p.0 - 1)
}

/// The lesser of two positions.
pub(crate) fn lesser(a: Pos, b: Pos) -> Pos
    ensures { result.0 ≡ int_min a.0 b.0 }
{
    if b < a { b } else { a }
}

/// The greater of two positions.
pub(crate) fn greater(a: Pos, b: Pos) -> Pos
    ensures { result.0 ≡ int_max a.0 b.0 }
{
    if b < a { a } else { b }
}
