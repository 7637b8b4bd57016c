ghost use Rattle.std.specs.Prelude.{◌↔◌, IsTrue};
ghost use Rattle.span_core.specs.Tokens.{IsFit};

use crate::answers::Token;
use crate::ends::{is_up_to, one_on, range_begin};
use moment_core::{HIGH, LOW};

/// Whether a walk may go on from the token: its end is in the calendar range, and from the range's
/// beginning come, in the direction, the open run's first position, the place, and the end. Without
/// an open run the place may be one past the end.
pub fn token_fits(t: Token) -> bool
    ensures { IsTrue result ↔ IsFit t }
{
    if t.end.0 < 2 * LOW || 2 * HIGH < t.end.0 {
        return false;
    }
    match t.begun {
        None => {
            is_up_to(t.dir, t.place, range_begin(t.dir))
                && is_up_to(t.dir, one_on(t.dir, t.end), t.place)
        }
        Some(begun) => {
            is_up_to(t.dir, begun, range_begin(t.dir))
                && is_up_to(t.dir, t.place, begun)
                && is_up_to(t.dir, t.end, t.place)
        }
    }
}
