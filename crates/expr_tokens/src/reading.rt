//! Reading the tokens of a text.

ghost use Rattle.std.specs.Prelude.{◌≡◌, ◌∷◌, ◌<◌, ◌≤◌, ◌^◌, ◌+◌, ℕ, length, drop, true, IfOk};
ghost use Rattle.expr_tokens.specs.declared.class.Class.TheVariants as classes;
ghost use Rattle.expr_tokens.specs.Class.{holds, passes_first};
ghost use Rattle.expr_tokens.specs.Plain.{plains};
ghost use Rattle.expr_tokens.specs.Reading.{value_from, number_at, name_at, text_at, sign_at, figures_at, token_at, tokens_of, begins_digit, begins_number, IsReading, GivesFront, IsPlacedFront, IsShorterFront};

use crate::class::{Class, is_of, split};
use crate::fault::TokenFault;
use crate::names::word;
use crate::token::Token;
use moment_core::Op;
use moment_text::{literal_laws, read_moment, shaped_front};
use std::alloc::Global;

/// The most bytes between the quotes of a string.
pub const STRING_LIMIT: usize = 1024;

/// The number that at most 13 digits write.
fn value(digits: &[u8]) -> u64
    requires { length digits.now ≤ 13 }
    ensures value { result ≡ value_from 0 digits.now }
    ensures small { result < 2 ^ 60 }
{
    let mut n: u64 = 0;
    for d in digits {
        n = 10 * n + d.saturating_sub(b'0') as u64;
    }
    n
}

#[tactic(auto, unfolding(crate::specs::Reading::number_at))]
fn number(minus: bool, bytes: &[u8]) -> Option<(Token<'_>, &[u8])>
    requires { begins_digit bytes.now ≡ true }
    ensures read { GivesFront result (number_at minus bytes.now) }
    ensures placed { (total left : ℕ) → IsPlacedFront result total left }
    ensures shorter { IsShorterFront result (drop 1 bytes.now) }
{
    let (digits, rest) = split(Class::Digit, bytes);
    if digits.len() > 13 {
        return None;
    }
    let n = value(digits) as i64;
    Some((Token::Number(if minus { -n } else { n }), rest))
}

/// All the bytes of a name.
#[tactic(auto, unfolding(crate::specs::Reading::name_at))]
fn name(place: usize, bytes: &[u8]) -> Option<(Token<'_>, &[u8])>
    requires { passes_first (holds classes.Name) bytes.now ≡ true }
    ensures read { GivesFront result (name_at bytes.now) }
    ensures placed { IsPlacedFront result (place + length bytes.now) (length bytes.now) }
    ensures shorter { IsShorterFront result (drop 1 bytes.now) }
{
    let (name, rest) = split(Class::Name, bytes);
    let token = match word(name) {
        Some(word) => Token::Word(word, place),
        None => Token::Name(name),
    };
    Some((token, rest))
}

/// What stands behind a quote: at most `STRING_LIMIT` bytes and a quote.
#[tactic(auto, unfolding(crate::specs::Reading::text_at, crate::specs::Reading::quote_at))]
fn text(bytes: &[u8]) -> Option<(Token<'_>, &[u8])>
    ensures read { GivesFront result (text_at bytes.now) }
    ensures placed { (total left : ℕ) → IsPlacedFront result total left }
    ensures shorter { IsShorterFront result bytes.now }
{
    let (quoted, rest) = split(Class::Quoted, bytes);
    if quoted.len() > STRING_LIMIT {
        return None;
    }
    match rest {
        [b'"', after @ ..] => Some((Token::Text(quoted), after)),
        _ => None,
    }
}

#[tactic(auto, unfolding(crate::specs::Reading::sign_of))]
fn sign(b: u8, rest: &[u8]) -> Option<(Token<'_>, &[u8])>
    ensures read { GivesFront result (sign_at b rest.now) }
    ensures placed { (total left : ℕ) → IsPlacedFront result total left }
    ensures shorter { IsShorterFront result rest.now }
{
    let token = match b {
        b'(' => Token::Open,
        b')' => Token::Close,
        b'{' => Token::LeftBrace,
        b'}' => Token::RightBrace,
        b',' => Token::Comma,
        b';' => Token::Semicolon,
        b'=' => Token::Equals,
        b'|' => Token::Operator(Op::Union),
        b'&' => Token::Operator(Op::Meet),
        b'-' => Token::Operator(Op::Minus),
        b'!' => Token::Exclamation,
        _ => return None,
    };
    Some((token, rest))
}

fn is_digit_first(bytes: &[u8]) -> bool
    ensures { result ≡ begins_digit bytes.now }
{
    match bytes {
        [] => false,
        [b, ..] => is_of(Class::Digit, *b),
    }
}

/// A moment literal, or a number.
#[tactic(auto, unfolding(crate::specs::Reading::figures_at))]
fn figures<'a>(
    place: usize,
    b: u8,
    bytes: &'a [u8],
    rest: &'a [u8],
) -> Option<(Token<'a>, &'a [u8])>
    requires bytes { bytes.now ≡ b ∷ rest.now }
    requires begins { begins_number b rest.now ≡ true }
    ensures read { GivesFront result (figures_at bytes.now) }
    ensures placed { IsPlacedFront result (place + length bytes.now) (length bytes.now) }
    ensures shorter { IsShorterFront result rest.now }
{
    literal_laws();
    let width = shaped_front(bytes);
    if width > 0 {
        let (literal, behind) = bytes.split_at(width);
        return Some((Token::Moment(read_moment(literal), place), behind));
    }
    if b == b'-' {
        number(true, rest)
    } else {
        number(false, bytes)
    }
}

/// The token at the front, where one begins.
#[tactic(auto, unfolding(crate::specs::Reading::token_at))]
fn token<'a>(place: usize, b: u8, bytes: &'a [u8], rest: &'a [u8]) -> Option<(Token<'a>, &'a [u8])>
    requires { bytes.now ≡ b ∷ rest.now }
    ensures read { GivesFront result (token_at b rest.now) }
    ensures placed { IsPlacedFront result (place + length bytes.now) (length bytes.now) }
    ensures shorter { IsShorterFront result rest.now }
{
    if is_of(Class::Letter, b) {
        name(place, bytes)
    } else if b == b'"' {
        text(rest)
    } else if is_of(Class::Digit, b) || (b == b'-' && is_digit_first(rest)) {
        figures(place, b, bytes, rest)
    } else {
        sign(b, rest)
    }
}

/// The tokens of a text, by the longest reading.
///
/// A moment literal is read before a number. Spaces, tabs, line feeds and carriage returns separate
/// tokens. A `Token` fault comes exactly where no token begins at a byte, also where a string has
/// more than `STRING_LIMIT` bytes or isn't closed and where a number has more than 13 digits, and
/// names the first such byte, where the token would begin.
pub fn tokens(alloc: Global, text: &[u8]) -> Result<Vec<Token<'_>>, TokenFault>
    ensures reading { IsReading text.now result }
    ensures tokens { IfOk result (λ v. tokens_of text.now ≡ Ok (plains v.items)) }
{
    let mut found = Vec::new(alloc);
    let mut rest = text;
    'tokens: while let Some((b, after)) = rest.split_first() {
        if is_of(Class::Blank, *b) {
            rest = after;
        } else {
            let byte = text.len() - rest.len();
            match token(byte, *b, rest, after) {
                None => return Err(TokenFault::Token { byte }),
                Some((token, behind)) => {
                    found.push(token)?;
                    rest = behind;
                }
            }
        }
    }
    Ok(found)
}
