ghost use Rattle.std.specs.Prelude.{◌≡◌, ◌<◌, ◌≤◌, ◌∷◌, ◌++◌, length, List, drop, true, false, IfOk, IfNone, IfSome, OnSome, Some, IsErrOf};
ghost use Rattle.expr_tokens.specs.Plain.{plains};
ghost use Rattle.expr_grammar.specs.Form.{Span};
ghost use Rattle.expr_grammar.specs.Syntax.{HasPlaces, KeepsPlaces, form_of, forms_of, places_of, all_places_of, span_places};
ghost use Rattle.expr_grammar.specs.Moments.{IsNextMoment};
ghost use Rattle.expr_grammar.specs.Grammar.{SpellNothing, Spells};
ghost use Rattle.expr_grammar.specs.Parsing.{Gives, ReadsMoments, ReadsTree, deeper_at, operands_at, stands, moment_at, list_at, moments_at, moments_end_at, close_at, high_at, high_end_at, low_end_at, span_at, rrule_at, leaf_at, atom_at, expr_at, call_at, call_end_at, name_at, nested_at, operand_at, pairs_end_at, program_end_at, program_at, second_at, unary_end_at};

use crate::calls::{takes_expression, unary_named};
use crate::fault::ParseFault;
use crate::fields::rule;
use crate::syntax::{BinaryOp, SpanBound, SyntaxTree, SyntaxTrees, binary, spanned, unary};
use expr_tokens::{Token, Word};
use moment_core::{Op, Stamp, UnaryOp};
use std::alloc::Global;

/// The tokens behind the operator, where it stands next.
fn behind<'t, 'a>(op: Op, tokens: &'t [Token<'a>]) -> Option<&'t [Token<'a>]>
    ensures none { IfNone result (stands op (plains tokens.now) ≡ false) }
    ensures some { OnSome result (stands op (plains tokens.now) ≡ true) }
    ensures rest { IfSome result (λ after. plains after.now ≡ drop 1 (plains tokens.now)) }
    ensures places { IfSome result (λ after. span_places after.now ≡ span_places tokens.now) }
    ensures shorter { IfSome result (λ after. length after.now < length tokens.now) }
{
    match tokens {
        [Token::Operator(next), after @ ..] if *next == op => Some(after),
        _ => None,
    }
}

/// The next moment of a list, and the tokens behind it.
#[tactic(auto, unfolding(crate::specs::Parsing::moments_at, crate::specs::Parsing::moments_end_at))]
fn next_moment<'t, 'a>(tokens: &'t [Token<'a>]) -> Option<(Option<Stamp>, &'t [Token<'a>])>
    ensures read { IsNextMoment (plains tokens.now) result }
    ensures places { IfSome result (λ x. span_places x.1.now ≡ span_places tokens.now) }
    ensures shorter { IfSome result (λ x. length x.1.now < length tokens.now) }
{
    match tokens {
        [Token::Comma, Token::Moment(stamp, _), rest @ ..] => Some((*stamp, rest)),
        _ => None,
    }
}

#[tactic(auto, unfolding(crate::specs::Parsing::moments_end_at))]
fn moments_end<'t, 'a>(
    found: Vec<Option<Stamp>>,
    tokens: &'t [Token<'a>],
) -> Result<(Vec<Option<Stamp>>, &'t [Token<'a>]), ParseFault>
    ensures read { ReadsMoments result (moments_end_at found.items (plains tokens.now)) }
    ensures places { IfOk result (λ x. span_places tokens.now ≡ span_places x.1.now) }
    ensures shorter { IfOk result (λ x. length x.1.now ≤ length tokens.now) }
{
    match tokens {
        [Token::RightBrace, rest @ ..] => Ok((found, rest)),
        _ => Err(ParseFault::Syntax),
    }
}

fn first_moment<'t, 'a>(
    tokens: &'t [Token<'a>],
) -> Result<(Option<Stamp>, &'t [Token<'a>]), ParseFault>
    ensures read { Gives (λ x. (x.0, plains x.1.now)) result (moment_at (plains tokens.now)) }
    ensures places { IfOk result (λ x. span_places tokens.now ≡ span_places x.1.now) }
    ensures shorter { IfOk result (λ x. length x.1.now ≤ length tokens.now) }
{
    match tokens {
        [Token::Moment(stamp, _), rest @ ..] => Ok((*stamp, rest)),
        _ => Err(ParseFault::Syntax),
    }
}

/// The moments of a list, up to its brace.
#[tactic(auto, unfolding(crate::specs::Parsing::list_at))]
fn moments<'t, 'a>(
    alloc: Global,
    tokens: &'t [Token<'a>],
) -> Result<(Vec<Option<Stamp>>, &'t [Token<'a>]), ParseFault>
    ensures read { ReadsMoments result (list_at (plains tokens.now)) }
    ensures places { IfOk result (λ x. span_places tokens.now ≡ span_places x.1.now) }
    ensures shorter { IfOk result (λ x. length x.1.now ≤ length tokens.now) }
{
    let (first, mut rest) = first_moment(tokens)?;
    let mut found = Vec::new(alloc);
    found.push(first)?;
    'moments: while let Some((stamp, after)) = next_moment(rest) {
        found.push(stamp)?;
        rest = after;
    }
    moments_end(found, rest)
}

#[tactic(auto, unfolding(crate::specs::Parsing::close_at))]
pub(crate) fn close<'t, 'a>(
    whole: SyntaxTree,
    tokens: &'t [Token<'a>],
) -> Result<(SyntaxTree, &'t [Token<'a>]), ParseFault>
    ensures read { ReadsTree result (close_at (form_of whole) (plains tokens.now)) }
    ensures places { IfOk result (KeepsPlaces (places_of whole ++ span_places tokens.now)) }
    ensures shorter { IfOk result (λ x. length x.1.now ≤ length tokens.now) }
{
    match tokens {
        [Token::Close, rest @ ..] => Ok((whole, rest)),
        _ => Err(ParseFault::Syntax),
    }
}

fn high<'t, 'a>(tokens: &'t [Token<'a>]) -> Result<(SpanBound, &'t [Token<'a>]), ParseFault>
    ensures read { Gives (λ x. (x.0, plains x.1.now)) result (high_at (plains tokens.now)) }
    ensures places { IfOk result (λ x. span_places tokens.now ≡ span_places x.1.now) }
    ensures shorter { IfOk result (λ x. length x.1.now ≤ length tokens.now) }
{
    let (closed, stamp, rest) = match tokens {
        [
            Token::Word(Word::End, _),
            Token::Moment(stamp, _),
            rest @ ..,
        ] => (true, *stamp, rest),
        [
            Token::Word(Word::Before, _),
            Token::Moment(stamp, _),
            rest @ ..,
        ] => (false, *stamp, rest),
        _ => return Err(ParseFault::Syntax),
    };
    Ok((SpanBound { closed, stamp }, rest))
}

/// The upper bound, and the bracket behind it.
#[tactic(auto, unfolding(crate::specs::Parsing::high_end_at))]
fn high_end<'t, 'a>(
    place: usize,
    low: Option<SpanBound>,
    tokens: &'t [Token<'a>],
) -> Result<(SyntaxTree, &'t [Token<'a>]), ParseFault>
    ensures read { ReadsTree result (high_end_at low (plains tokens.now)) }
    ensures places { IfOk result (KeepsPlaces (place ∷ span_places tokens.now)) }
    ensures shorter { IfOk result (λ x. length x.1.now ≤ length tokens.now) }
{
    let (high, rest) = high(tokens)?;
    close(spanned(place, low, Some(high)), rest)
}

/// What stands behind a lower bound.
#[tactic(auto, unfolding(crate::specs::Parsing::low_end_at))]
fn low_end<'t, 'a>(
    place: usize,
    low: SpanBound,
    tokens: &'t [Token<'a>],
) -> Result<(SyntaxTree, &'t [Token<'a>]), ParseFault>
    ensures read { ReadsTree result (low_end_at low (plains tokens.now)) }
    ensures places { IfOk result (KeepsPlaces (place ∷ span_places tokens.now)) }
    ensures shorter { IfOk result (λ x. length x.1.now ≤ length tokens.now) }
{
    match tokens {
        [Token::Comma, rest @ ..] => high_end(place, Some(low), rest),
        _ => close(spanned(place, Some(low), None), tokens),
    }
}

/// The bounds of a span, and the bracket behind them.
#[tactic(auto, unfolding(crate::specs::Parsing::span_at))]
fn span<'t, 'a>(
    place: usize,
    tokens: &'t [Token<'a>],
) -> Result<(SyntaxTree, &'t [Token<'a>]), ParseFault>
    ensures read { ReadsTree result (span_at (plains tokens.now)) }
    ensures places { IfOk result (KeepsPlaces (place ∷ span_places tokens.now)) }
    ensures shorter { IfOk result (λ x. length x.1.now ≤ length tokens.now) }
{
    match tokens {
        [Token::Close, rest @ ..] => Ok((spanned(place, None, None), rest)),
        [
            Token::Word(Word::Start, _),
            Token::Moment(stamp, _),
            rest @ ..,
        ] => {
            let low = SpanBound {
                closed: true,
                stamp: *stamp,
            };
            low_end(place, low, rest)
        }
        [
            Token::Word(Word::After, _),
            Token::Moment(stamp, _),
            rest @ ..,
        ] => {
            let low = SpanBound {
                closed: false,
                stamp: *stamp,
            };
            low_end(place, low, rest)
        }
        _ => high_end(place, None, tokens),
    }
}

/// The text of a recurrence rule, its first moment, and the bracket behind them.
#[tactic(auto, unfolding(crate::specs::Parsing::rrule_at))]
fn rrule<'t, 'a>(
    alloc: Global,
    tokens: &'t [Token<'a>],
) -> Result<(SyntaxTree, &'t [Token<'a>]), ParseFault>
    ensures read { ReadsTree result (rrule_at (plains tokens.now)) }
    ensures places { IfOk result (KeepsPlaces (span_places tokens.now)) }
    ensures shorter { IfOk result (λ x. length x.1.now ≤ length tokens.now) }
{
    match tokens {
        [
            Token::Text(text),
            Token::Comma,
            Token::Moment(start, _),
            Token::Close,
            rest @ ..,
        ] => {
            let text = text.to_vec(alloc)?;
            Ok((
                SyntaxTree::Rrule {
                    text,
                    start: *start,
                },
                rest,
            ))
        }
        _ => Err(ParseFault::Syntax),
    }
}

/// An atom without an expression in it.
#[tactic(auto, unfolding(crate::specs::Parsing::leaf_at))]
fn leaf<'t, 'a>(
    alloc: Global,
    tokens: &'t [Token<'a>],
) -> Result<(SyntaxTree, &'t [Token<'a>]), ParseFault>
    ensures read { ReadsTree result (leaf_at (plains tokens.now)) }
    ensures places { IfOk result (KeepsPlaces (span_places tokens.now)) }
    ensures shorter { IfOk result (λ x. length x.1.now ≤ length tokens.now) }
{
    match tokens {
        [
            Token::Word(Word::Empty, _),
            Token::Open,
            Token::Close,
            rest @ ..,
        ] => Ok((SyntaxTree::Empty, rest)),
        [Token::Word(Word::Span, place), Token::Open, rest @ ..] => span(*place, rest),
        [Token::Word(Word::Rrule, _), Token::Open, rest @ ..] => rrule(alloc, rest),
        [Token::LeftBrace, rest @ ..] => {
            let (found, rest) = moments(alloc, rest)?;
            Ok((SyntaxTree::List(found), rest))
        }
        _ => rule(alloc, tokens),
    }
}

/// The name of such a call, and the tokens behind its bracket.
fn name<'t, 'a>(tokens: &'t [Token<'a>]) -> Option<(Word, &'t [Token<'a>])>
    ensures none { IfNone result (name_at (plains tokens.now) ≡ None) }
    ensures some { IfSome result (λ x. name_at (plains tokens.now) ≡ Some (x.0, plains x.1.now)) }
    ensures places { IfSome result (λ x. span_places tokens.now ≡ span_places x.1.now) }
    ensures shorter { IfSome result (λ x. length x.1.now ≤ length tokens.now) }
{
    match tokens {
        [Token::Word(word, _), Token::Open, rest @ ..] if takes_expression(*word) => {
            Some((*word, rest))
        }
        _ => None,
    }
}

/// The end of a call of one expression, with the number behind it if there is one.
#[tactic(auto, unfolding(crate::specs::Parsing::unary_end_at))]
fn unary_end<'t, 'a>(
    name: Word,
    tokens: &'t [Token<'a>],
) -> Result<(UnaryOp, &'t [Token<'a>]), ParseFault>
    ensures read { Gives (λ x. (x.0, plains x.1.now)) result
        (unary_end_at name (plains tokens.now)) }
    ensures places { IfOk result (λ x. span_places tokens.now ≡ span_places x.1.now) }
    ensures shorter { IfOk result (λ x. length x.1.now ≤ length tokens.now) }
{
    let (number, rest) = match tokens {
        [Token::Close, rest @ ..] => (None, rest),
        [Token::Comma, Token::Number(n), Token::Close, rest @ ..] => (Some(*n), rest),
        _ => return Err(ParseFault::Syntax),
    };
    match unary_named(name, number) {
        Some(op) => Ok((op, rest)),
        None => Err(ParseFault::Syntax),
    }
}

/// The second expression of a call, and the bracket behind it.
#[cycle(expression)]
#[tactic(auto, unfolding(crate::specs::Parsing::pairs_end_at))]
fn pairs_end<'t, 'a>(
    alloc: Global,
    first: SyntaxTree,
    tokens: &'t [Token<'a>],
    depth: u8,
) -> Result<(SyntaxTree, &'t [Token<'a>]), ParseFault>
    ensures read { ReadsTree result
        (pairs_end_at (expr_at (atom_at depth)) (form_of first) (plains tokens.now)) }
    ensures places { IfOk result (KeepsPlaces (places_of first ++ span_places tokens.now)) }
    ensures shorter { IfOk result (λ x. length x.1.now ≤ length tokens.now) }
{
    match tokens {
        [Token::Comma, inner @ ..] => {
            let (second, rest) = chain(alloc, Op::Union, inner, depth)?;
            close(binary(alloc, BinaryOp::Pairs, first, second)?, rest)
        }
        _ => Err(ParseFault::Syntax),
    }
}

/// The end of a call, behind its first expression.
#[cycle(expression)]
#[tactic(auto, unfolding(crate::specs::Parsing::call_end_at))]
fn call_end<'t, 'a>(
    alloc: Global,
    name: Word,
    first: SyntaxTree,
    tokens: &'t [Token<'a>],
    depth: u8,
) -> Result<(SyntaxTree, &'t [Token<'a>]), ParseFault>
    ensures read { ReadsTree result
        (call_end_at (expr_at (atom_at depth)) name (form_of first) (plains tokens.now)) }
    ensures places { IfOk result (KeepsPlaces (places_of first ++ span_places tokens.now)) }
    ensures shorter { IfOk result (λ x. length x.1.now ≤ length tokens.now) }
{
    match name {
        Word::Pairs => pairs_end(alloc, first, tokens, depth),
        _ => {
            let (op, rest) = unary_end(name, tokens)?;
            Ok((unary(alloc, op, first)?, rest))
        }
    }
}

/// A call that takes an expression, behind its bracket.
#[cycle(expression)]
#[tactic(auto, unfolding(crate::specs::Parsing::call_at))]
fn call<'t, 'a>(
    alloc: Global,
    name: Word,
    tokens: &'t [Token<'a>],
    depth: u8,
) -> Result<(SyntaxTree, &'t [Token<'a>]), ParseFault>
    ensures read { ReadsTree result (call_at (expr_at (atom_at depth)) name (plains tokens.now)) }
    ensures places { IfOk result (KeepsPlaces (span_places tokens.now)) }
    ensures shorter { IfOk result (λ x. length x.1.now ≤ length tokens.now) }
{
    let (first, rest) = chain(alloc, Op::Union, tokens, depth)?;
    call_end(alloc, name, first, rest, depth)
}

#[cycle(expression)]
#[tactic(auto, unfolding(crate::specs::Parsing::atom_at))]
fn atom<'t, 'a>(
    alloc: Global,
    tokens: &'t [Token<'a>],
    depth: u8,
) -> Result<(SyntaxTree, &'t [Token<'a>]), ParseFault>
    ensures read { ReadsTree result (atom_at depth (plains tokens.now)) }
    ensures places { IfOk result (KeepsPlaces (span_places tokens.now)) }
    ensures shorter { IfOk result (λ x. length x.1.now ≤ length tokens.now) }
{
    if depth == 0 {
        leaf(alloc, tokens)
    } else {
        nested(alloc, tokens, depth - 1)
    }
}

/// An atom that may have one more pair of brackets or one more sign than so many; the brackets of a
/// call that takes an expression are one.
#[cycle(expression)]
#[tactic(auto, unfolding(crate::specs::Parsing::nested_at))]
fn nested<'t, 'a>(
    alloc: Global,
    tokens: &'t [Token<'a>],
    depth: u8,
) -> Result<(SyntaxTree, &'t [Token<'a>]), ParseFault>
    ensures read { ReadsTree result (deeper_at depth (plains tokens.now)) }
    ensures places { IfOk result (KeepsPlaces (span_places tokens.now)) }
    ensures shorter { IfOk result (λ x. length x.1.now ≤ length tokens.now) }
{
    match tokens {
        [Token::Open, inner @ ..] => {
            let (whole, rest) = chain(alloc, Op::Union, inner, depth)?;
            close(whole, rest)
        }
        [Token::Exclamation, inner @ ..] => {
            let (whole, rest) = atom(alloc, inner, depth)?;
            Ok((unary(alloc, UnaryOp::Not, whole)?, rest))
        }
        _ => match name(tokens) {
            Some((name, inner)) => call(alloc, name, inner, depth),
            None => leaf(alloc, tokens),
        },
    }
}

/// What the operator joins.
#[cycle(expression)]
fn operand<'t, 'a>(
    alloc: Global,
    op: Op,
    tokens: &'t [Token<'a>],
    depth: u8,
) -> Result<(SyntaxTree, &'t [Token<'a>]), ParseFault>
    ensures read { ReadsTree result (operand_at (atom_at depth) op (plains tokens.now)) }
    ensures places { IfOk result (KeepsPlaces (span_places tokens.now)) }
    ensures shorter { IfOk result (λ x. length x.1.now ≤ length tokens.now) }
{
    match op {
        Op::Meet => atom(alloc, tokens, depth),
        Op::Minus => chain(alloc, Op::Meet, tokens, depth),
        Op::Union => chain(alloc, Op::Minus, tokens, depth),
    }
}

/// One operand, or more that the operator joins to the left.
#[cycle(expression)]
fn chain<'t, 'a>(
    alloc: Global,
    op: Op,
    tokens: &'t [Token<'a>],
    depth: u8,
) -> Result<(SyntaxTree, &'t [Token<'a>]), ParseFault>
    ensures read { ReadsTree result (operands_at depth op (plains tokens.now)) }
    ensures places { IfOk result (KeepsPlaces (span_places tokens.now)) }
    ensures shorter { IfOk result (λ x. length x.1.now ≤ length tokens.now) }
{
    let (mut left, mut rest) = operand(alloc, op, tokens, depth)?;
    'operands: while let Some(after) = behind(op, rest) {
        let (right, after) = operand(alloc, op, after, depth)?;
        left = binary(alloc, BinaryOp::Infix(op), left, right)?;
        rest = after;
    }
    Ok((left, rest))
}

/// How deep round brackets and signs may nest, with the brackets of the calls that take an
/// expression.
pub const NESTING_LIMIT: u8 = 128;

fn expression<'t, 'a>(
    alloc: Global,
    tokens: &'t [Token<'a>],
) -> Result<(SyntaxTree, &'t [Token<'a>]), ParseFault>
    ensures read { ReadsTree result (expr_at (atom_at NESTING_LIMIT) (plains tokens.now)) }
    ensures places { IfOk result (KeepsPlaces (span_places tokens.now)) }
{
    chain(alloc, Op::Union, tokens, NESTING_LIMIT)
}

#[tactic(auto, unfolding(crate::specs::Parsing::second_at))]
fn second<'t, 'a>(
    alloc: Global,
    first: SyntaxTree,
    tokens: &'t [Token<'a>],
) -> Result<SyntaxTrees, ParseFault>
    ensures read { Gives forms_of result (second_at (form_of first) (plains tokens.now)) }
    ensures places { IfOk result (HasPlaces (places_of first ++ span_places tokens.now)) }
{
    let (other, rest) = expression(alloc, tokens)?;
    if !rest.is_empty() {
        return Err(ParseFault::Syntax);
    }
    Ok(SyntaxTrees {
        first,
        second: Some(other),
    })
}

#[tactic(auto, unfolding(crate::specs::Parsing::program_end_at))]
fn program_end<'t, 'a>(
    alloc: Global,
    first: SyntaxTree,
    tokens: &'t [Token<'a>],
) -> Result<SyntaxTrees, ParseFault>
    ensures read { Gives forms_of result (program_end_at (form_of first) (plains tokens.now)) }
    ensures places { IfOk result (HasPlaces (places_of first ++ span_places tokens.now)) }
{
    match tokens {
        [] => Ok(SyntaxTrees {
            first,
            second: None,
        }),
        [Token::Semicolon, rest @ ..] => second(alloc, first, rest),
        _ => Err(ParseFault::Syntax),
    }
}

#[tactic(auto, unfolding(crate::specs::Parsing::program_at))]
fn program<'t, 'a>(alloc: Global, tokens: &'t [Token<'a>]) -> Result<SyntaxTrees, ParseFault>
    ensures read { Gives forms_of result (program_at (plains tokens.now)) }
    ensures places { IfOk result (λ p. span_places tokens.now ≡ all_places_of p) }
{
    let (first, rest) = expression(alloc, tokens)?;
    program_end(alloc, first, rest)
}

/// The program that the tokens spell, with its spans at the places of the name `span`.
pub fn parse<'t, 'a>(alloc: Global, tokens: &'t [Token<'a>]) -> Result<SyntaxTrees, ParseFault>
    // What is read is spelled so.
    ensures spelled { IfOk result (λ p. Spells (forms_of p) (plains tokens.now)) }
    ensures places { IfOk result (λ p. all_places_of p ≡ span_places tokens.now) }
    // `Syntax` comes only where the tokens spell nothing.
    ensures syntax { IsErrOf result ParseFault.Syntax → SpellNothing (plains tokens.now) }
{
    program(alloc, tokens)
}
