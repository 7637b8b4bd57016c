ghost use Rattle.std.specs.Prelude.{◌≡◌, ◌&&◌};
ghost use Rattle.expr_tokens.specs.Plain.{plain, plains};
ghost use Rattle.expr_text.specs.Calls.{calls_unbuilt, is_bracket, is_unbuilt, names_unbuilt};
ghost use Rattle.expr_text.specs.Phases.{first_nameless};

use expr_tokens::{Token, Word};

/// Whether the word is the name of a call that isn't built.
fn is_unbuilt(word: Word) -> bool
    ensures { result ≡ is_unbuilt word }
{
    matches!(word, Word::Event | Word::Zoned | Word::ZonedFirst)
}

/// Whether the token is such a name.
fn names_unbuilt(token: &Token<'_>) -> bool
    ensures { result ≡ names_unbuilt (plain token.now) }
{
    match token {
        Token::Word(word, _) => is_unbuilt(*word),
        _ => false,
    }
}

/// Whether a round bracket stands behind such a name.
fn opens_call(named: bool, token: &Token<'_>) -> bool
    ensures { result ≡ (is_bracket (plain token.now) && named) }
{
    named && matches!(token, Token::Open)
}

/// Whether such a name stands before a round bracket.
pub fn calls_unbuilt<'t, 'a>(tokens: &'t [Token<'a>]) -> bool
    ensures { result ≡ calls_unbuilt (plains tokens.now) }
{
    let mut named = false;
    for token in tokens {
        if opens_call(named, token) {
            return true;
        }
        named = names_unbuilt(token);
    }
    false
}

/// The place of the first literal that names no moment.
pub fn first_nameless<'t, 'a>(tokens: &'t [Token<'a>]) -> Option<usize>
    ensures { result ≡ first_nameless tokens.now }
{
    for token in tokens {
        if let Token::Moment(None, place) = token {
            return Some(*place);
        }
    }
    None
}
