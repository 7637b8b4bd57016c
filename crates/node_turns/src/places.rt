ghost use Rattle.std.specs.Prelude.{◌≡◌, ◌≤◌, ◌^◌, unsigned_abs, ◌+ℤ◌, ◌-ℤ◌, ◌≤ℤ◌};
ghost use Rattle.moment_core.specs.Line.{is_moment, position_of};
ghost use Rattle.moment_core.specs.Sets.{ahead};
ghost use Rattle.moment_core.specs.declared.line.TheConstants.{HIGH, LOW, REACH};
ghost use Rattle.node_turns.specs.Turns.{candidate_at, is_past, open_before};

use lowered_tree::{one_after, one_before};
use moment_core::{Dir, Pos, floor};

/// The position next to one in the direction.
pub(crate) fn next(dir: Dir, p: Pos) -> Pos
    requires low { position_of (LOW -ℤ REACH) ≤ℤ p.0 }
    requires high { p.0 ≤ℤ position_of (HIGH +ℤ REACH) }
    ensures { result.0 ≡ ahead dir p.0 1 }
{
    match dir {
        Dir::Fore => one_after(p),
        Dir::Back => one_before(p),
    }
}

/// Whether the position is a moment.
pub fn is_moment(p: Pos) -> bool
    ensures { result ≡ is_moment p.0 }
{
    p.0.rem_euclid(2) == 0
}

/// The open second at the position, or the one right before it in the direction.
pub(crate) fn open_before(dir: Dir, p: Pos) -> Pos
    requires low { position_of (LOW -ℤ REACH) ≤ℤ p.0 }
    requires high { p.0 ≤ℤ position_of (HIGH +ℤ REACH) }
    ensures { result.0 ≡ open_before dir p.0 }
{
    if !is_moment(p) {
        return p;
    }
    match dir {
        Dir::Fore => one_before(p),
        Dir::Back => one_after(p),
    }
}

/// Of a position and the one before it in the direction, the one that is a moment.
pub(crate) fn candidate_at(dir: Dir, q: Pos) -> Pos
    requires { unsigned_abs q.0 ≤ 2 ^ 60 }
    ensures { result.0 ≡ candidate_at dir q.0 }
{
    match dir {
        Dir::Fore => Pos(2 * floor(q).0),
        Dir::Back => Pos(2 * floor(Pos(q.0 + 1)).0),
    }
}

/// Whether `q` lies past `p` in the direction.
pub(crate) fn is_past(dir: Dir, q: Pos, p: Pos) -> bool
    ensures { result ≡ is_past dir q.0 p.0 }
{
    match dir {
        Dir::Fore => p < q,
        Dir::Back => q < p,
    }
}
