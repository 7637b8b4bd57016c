ghost use Rattle.std.specs.Prelude.{◌≡◌};
ghost use Rattle.moment_core.specs.Line.{IsCalendarPosition};
ghost use Rattle.span_core.specs.Tokens.{IsFit};
ghost use Rattle.walk_core.specs.Tokens.{window_token};

use moment_core::{Dir, Pos, Window};
use span_core::Token;

/// The token at the first position of a window, in the direction, or right past its end where it
/// has none.
pub fn window_token(w: Window, dir: Dir) -> Token
    requires lo { IsCalendarPosition w.lo.0 }
    requires hi { IsCalendarPosition w.hi.0 }
    ensures value { result ≡ window_token w dir }
    ensures fit { IsFit result }
{
    match dir {
        Dir::Fore => Token {
            dir,
            place: Pos(w.lo.0.min(w.hi.0 + 1)),
            begun: None,
            end: w.hi,
        },
        Dir::Back => Token {
            dir,
            place: Pos(w.hi.0.max(w.lo.0 - 1)),
            begun: None,
            end: w.lo,
        },
    }
}
