ghost use Rattle.span_core.specs.Tokens.{IsFit};
ghost use Rattle.std.specs.Prelude.{◌≡◌, ℕ, List, Option, Some, true, IfSome, IfNone, IsSomeAnd, IsUtf8};
ghost use Rattle.std.specs.Fmt.{signed_decimal};
ghost use Rattle.moment_core.specs.declared.line.Dir.{Dir as TheDir};
ghost use Rattle.moment_core.specs.declared.line.Pos.{Pos as ThePos};
ghost use Rattle.span_core.specs.declared.answers.Token.{Token as TheToken};
ghost use Rattle.token_text.specs.Parts.{lacks_colon, ArePieces, IsNearIfGiven, IsNearRange};
ghost use Rattle.token_text.specs.Texts.{begun_text, dir_text, token_text, with_colon, Means};

use crate::writing::write_token;
use moment_core::{Dir, Pos};
use span_core::{Token, token_fits};

/// The direction that the text names.
fn dir_in(text: &str) -> Option<Dir>
    ensures { (dir : TheDir) → text.now ≡ dir_text dir → result ≡ Some dir }
{
    match text {
        "fore" => Some(Dir::Fore),
        "back" => Some(Dir::Back),
        _ => None,
    }
}

/// The position that the text writes.
fn position_in(text: &str) -> Option<Pos>
    ensures { (p : ThePos) → IsNearRange p → text.now ≡ signed_decimal p.0 → result ≡ Some p }
{
    match text.parse::<i64>() {
        Ok(number) => Some(Pos(number)),
        Err(_) => None,
    }
}

/// The first position of an open run, or none.
fn begun_in(text: &str) -> Option<Option<Pos>>
    ensures { (p : Option ThePos) → IsNearIfGiven p → text.now ≡ begun_text p → result ≡ Some p }
{
    if text == "-" {
        Some(None)
    } else {
        Some(Some(position_in(text)?))
    }
}

/// The part before the first colon, and what stands behind it.
fn cut(text: &str) -> Option<(&str, &str)>
    ensures { (a b : List ℕ) → lacks_colon a ≡ true → text.now ≡ with_colon a b
        → IsSomeAnd result (λ x. (x.0.now ≡ a) × (x.1.now ≡ b)) }
{
    text.split_once(':')
}

/// The four parts between three colons.
fn pieces(text: &str) -> Option<(&str, &str, &str, &str)>
    ensures { (t : TheToken) → IsFit t → text.now ≡ token_text t
        → IsSomeAnd result (λ x. ArePieces t x.0.now x.1.now x.2.now x.3.now) }
{
    let (dir, later) = cut(text)?;
    let (place, later) = cut(later)?;
    let (begun, end) = cut(later)?;
    Some((dir, place, begun, end))
}

/// The text that the bytes are, if they are one.
fn text_in(bytes: &[u8]) -> Option<&str>
    ensures some { IfSome result (λ text. text.now ≡ bytes.now) }
    ensures none { IfNone result (¬ (IsUtf8 bytes.now)) }
{
    str::from_utf8(bytes).ok()
}

/// The token whose text this is, if it is that of one.
fn parts(text: &[u8]) -> Option<Token>
    ensures { (t : TheToken) → IsFit t → text.now ≡ token_text t → result ≡ Some t }
{
    let (dir, place, begun, end) = pieces(text_in(text)?)?;
    match (
        dir_in(dir),
        position_in(place),
        begun_in(begun),
        position_in(end),
    ) {
        (Some(dir), Some(place), Some(begun), Some(end)) => Some(Token {
            dir,
            place,
            begun,
            end,
        }),
        _ => None,
    }
}

/// The token that the text means. None exactly where the text isn't that of a token from which a
/// walk can go on: its numbers have no leading zeros, and `-0` isn't one.
pub fn read_token(text: &[u8]) -> Option<Token>
    ensures some { IfSome result (Means text.now) }
    ensures none { IfNone result ((t : TheToken) → ¬ (Means text.now t)) }
{
    let token = parts(text)?;
    if token_fits(token) && write_token(token).as_slice() == text {
        Some(token)
    } else {
        None
    }
}
