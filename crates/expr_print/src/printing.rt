ghost use Rattle.std.specs.Prelude.{◌≡◌, ◌++◌, codes, IfOk, OnOk};
ghost use Rattle.std.specs.List.{All, flat_map};
ghost use Rattle.moment_core.specs.Line.{IsCalendarMoment};
ghost use Rattle.expr_tokens.specs.declared.token.Word.TheVariants as words;
ghost use Rattle.expr_tree.specs.Tree.{tree_of, trees_of};
ghost use Rattle.expr_tree.specs.WellFormed.{AreWellFormed, IsWellFormed};
ghost use Rattle.span_core.specs.Bounds.{IsGiven};
ghost use Rattle.expr_print.specs.Printing.{is_join, operand_text, stamp_text, next_stamp, stamps_text, low_text, high_text, moment_text, is_at_moment, comma_text, call_text, number_text, print, print_program, rrule_text, sign_text};
ghost use Rattle.rule_core.specs.WrittenForm.{IsWritable};

use crate::fields::{put_number, put_rule};
use expr_tree::{Expr, Program};
use moment_core::{Clock, Moment, Op, Stamp};
use moment_text::write_literal;
use rrule_text::write_rrule;
use rule_core::IcalRule;
use span_core::{Bound, Span};
use std::alloc::{AllocError, Global};

/// Whether an operator joins the set.
fn is_join(e: &Expr) -> bool
    ensures { result ≡ is_join (tree_of e.now) }
{
    matches!(e, Expr::Union(_, _) | Expr::Meet(_, _) | Expr::Minus(_, _))
}

pub(crate) fn put_stamp(out: &mut Vec<u8>, stamp: Stamp) -> Result<(), AllocError>
    requires { IsCalendarMoment stamp.moment.0 }
    ensures { OnOk result (out.new.items ≡ out.old.items ++ stamp_text stamp) }
{
    let literal = write_literal(stamp);
    out.extend_from_slice(literal.as_slice())
}

fn put_stamps(out: &mut Vec<u8>, stamps: &[Stamp]) -> Result<(), AllocError>
    requires { All (λ stamp. IsCalendarMoment stamp.moment.0) stamps.now }
    ensures { OnOk result (out.new.items ≡ out.old.items ++ stamps_text stamps.now) }
{
    let Some((first, others)) = stamps.split_first() else {
        return Ok(());
    };
    put_stamp(out, *first)?;
    put_more_stamps(out, others)
}

fn put_more_stamps(out: &mut Vec<u8>, stamps: &[Stamp]) -> Result<(), AllocError>
    requires { All (λ stamp. IsCalendarMoment stamp.moment.0) stamps.now }
    ensures { OnOk result (out.new.items ≡ out.old.items ++ flat_map next_stamp stamps.now) }
{
    for stamp in stamps {
        out.extend_from_slice(b", ")?;
        put_stamp(out, *stamp)?;
    }
    Ok(())
}

fn put_moment(out: &mut Vec<u8>, moment: Moment, clock: Clock) -> Result<(), AllocError>
    requires { IsCalendarMoment moment.0 }
    ensures { OnOk result (out.new.items ≡ out.old.items ++ moment_text moment clock) }
{
    let stamp = Stamp {
        moment,
        absolute: clock.is_absolute(),
    };
    put_stamp(out, stamp)
}

fn put_low(out: &mut Vec<u8>, low: Bound, clock: Clock) -> Result<(), AllocError>
    requires { IsGiven low }
    ensures { OnOk result (out.new.items ≡ out.old.items ++ low_text low clock) }
{
    match low {
        Bound::Closed(moment) => {
            out.extend_from_slice(b"start ")?;
            put_moment(out, moment, clock)
        }
        Bound::Open(moment) => {
            out.extend_from_slice(b"after ")?;
            put_moment(out, moment, clock)
        }
        Bound::Inf | Bound::Edge => Ok(()),
    }
}

fn put_high(out: &mut Vec<u8>, high: Bound, clock: Clock) -> Result<(), AllocError>
    requires { IsGiven high }
    ensures { OnOk result (out.new.items ≡ out.old.items ++ high_text high clock) }
{
    match high {
        Bound::Closed(moment) => {
            out.extend_from_slice(b"end ")?;
            put_moment(out, moment, clock)
        }
        Bound::Open(moment) => {
            out.extend_from_slice(b"before ")?;
            put_moment(out, moment, clock)
        }
        Bound::Inf | Bound::Edge => Ok(()),
    }
}

fn is_at_moment(bound: Bound) -> bool
    ensures { result ≡ is_at_moment bound }
{
    matches!(bound, Bound::Closed(_) | Bound::Open(_))
}

fn put_comma(out: &mut Vec<u8>, low: Bound, high: Bound) -> Result<(), AllocError>
    ensures { OnOk result (out.new.items ≡ out.old.items ++ comma_text low high) }
{
    if is_at_moment(low) && is_at_moment(high) {
        out.extend_from_slice(b", ")?;
    }
    Ok(())
}

/// Puts the written form of a rule of RFC 5545 in quotes, and its first moment.
fn put_rrule(out: &mut Vec<u8>, rule: &IcalRule) -> Result<(), AllocError>
    requires written { IsWritable rule.now }
    requires start { IsCalendarMoment rule.now.start.moment.0 }
    ensures { OnOk result (out.new.items ≡ out.old.items ++ rrule_text rule.now) }
{
    let text = write_rrule(*out.allocator(), rule)?;
    out.extend_from_slice(b"rrule(\"")?;
    out.extend_from_slice(text.as_slice())?;
    out.extend_from_slice(b"\", ")?;
    put_stamp(out, rule.start)?;
    out.extend_from_slice(b")")
}

/// Puts the number behind the one expression of a call, if there is one.
fn put_call_number(out: &mut Vec<u8>, number: Option<i64>) -> Result<(), AllocError>
    ensures { OnOk result (out.new.items ≡ out.old.items ++ number_text number) }
{
    if let Some(n) = number {
        out.extend_from_slice(b", ")?;
        put_number(out, n)?;
    }
    Ok(())
}

/// The sign between two operands.
fn sign(op: Op) -> &'static [u8]
    ensures { result.now ≡ sign_text op }
{
    match op {
        Op::Union => b" | ",
        Op::Meet => b" & ",
        Op::Minus => b" - ",
    }
}

/// Puts the set, with each operand that an operator joins in brackets.
#[cycle(putting)]
#[tactic(auto, unfolding(crate::specs::Printing::print))]
fn put(out: &mut Vec<u8>, e: &Expr) -> Result<(), AllocError>
    requires { IsWellFormed (tree_of e.now) }
    ensures { OnOk result (out.new.items ≡ out.old.items ++ print (tree_of e.now)) }
{
    match e {
        Expr::Empty => out.extend_from_slice(b"empty()"),
        Expr::List(stamps) => {
            out.extend_from_slice(b"{")?;
            put_stamps(out, stamps.items())?;
            out.extend_from_slice(b"}")
        }
        Expr::Span(span, low, high) => {
            out.extend_from_slice(b"span(")?;
            put_low(out, span.low(), *low)?;
            put_comma(out, span.low(), span.high())?;
            put_high(out, span.high(), *high)?;
            out.extend_from_slice(b")")
        }
        Expr::Field(rule) => put_rule(out, rule),
        Expr::Rrule(rule) => put_rrule(out, rule),
        Expr::Union(a, b) => put_infix(out, Op::Union, a, b),
        Expr::Meet(a, b) => put_infix(out, Op::Meet, a, b),
        Expr::Minus(a, b) => put_infix(out, Op::Minus, a, b),
        Expr::Not(a) => {
            out.extend_from_slice(b"!")?;
            put_operand(out, a)
        }
        Expr::During(a, seconds) => put_call(out, b"during(", a, Some(*seconds)),
        Expr::Pairs(a, b) => put_pairs(out, a, b),
        Expr::Starts(a) => put_call(out, b"starts(", a, None),
        Expr::Ends(a) => put_call(out, b"ends(", a, None),
        Expr::Shift(a, seconds) => put_call(out, b"shift(", a, Some(*seconds)),
    }
}

/// Puts two operands and the sign between them.
#[cycle(putting)]
fn put_infix(out: &mut Vec<u8>, op: Op, a: &Expr, b: &Expr) -> Result<(), AllocError>
    requires first { IsWellFormed (tree_of a.now) }
    requires second { IsWellFormed (tree_of b.now) }
    ensures { OnOk result (out.new.items
        ≡ out.old.items
        ++ (operand_text (tree_of a.now) ++ sign_text op ++ operand_text (tree_of b.now))) }
{
    put_operand(out, a)?;
    out.extend_from_slice(sign(op))?;
    put_operand(out, b)
}

/// Puts a call of one set, with the number behind it if there is one.
#[cycle(putting)]
fn put_call(
    out: &mut Vec<u8>,
    opening: &[u8],
    a: &Expr,
    number: Option<i64>,
) -> Result<(), AllocError>
    requires { IsWellFormed (tree_of a.now) }
    ensures { OnOk result (out.new.items
        ≡ out.old.items
        ++ (opening.now ++ (print (tree_of a.now) ++ number_text number) ++ codes ")")) }
{
    out.extend_from_slice(opening)?;
    put(out, a)?;
    put_call_number(out, number)?;
    out.extend_from_slice(b")")
}

/// Puts a call of two sets.
#[cycle(putting)]
fn put_pairs(out: &mut Vec<u8>, a: &Expr, b: &Expr) -> Result<(), AllocError>
    requires first { IsWellFormed (tree_of a.now) }
    requires second { IsWellFormed (tree_of b.now) }
    ensures { OnOk result (out.new.items
        ≡ out.old.items
        ++ call_text words.Pairs
        (print (tree_of a.now) ++ codes ", " ++ print (tree_of b.now))) }
{
    out.extend_from_slice(b"pairs(")?;
    put(out, a)?;
    out.extend_from_slice(b", ")?;
    put(out, b)?;
    out.extend_from_slice(b")")
}

#[cycle(putting)]
fn put_operand(out: &mut Vec<u8>, e: &Expr) -> Result<(), AllocError>
    requires { IsWellFormed (tree_of e.now) }
    ensures { OnOk result (out.new.items ≡ out.old.items ++ operand_text (tree_of e.now)) }
{
    if is_join(e) {
        out.extend_from_slice(b"(")?;
        put(out, e)?;
        out.extend_from_slice(b")")
    } else {
        put(out, e)
    }
}

/// The printed form of a set.
pub fn write_expr(alloc: Global, e: &Expr) -> Result<Vec<u8>, AllocError>
    requires { IsWellFormed (tree_of e.now) }
    ensures { IfOk result (λ text. text.items ≡ print (tree_of e.now)) }
{
    let mut out = Vec::new(alloc);
    put(&mut out, e)?;
    Ok(out)
}

/// The printed form of a program: its expressions with ` ; ` between them.
pub fn write_program(alloc: Global, p: &Program) -> Result<Vec<u8>, AllocError>
    requires { AreWellFormed (trees_of p.now) }
    ensures { IfOk result (λ text. text.items ≡ print_program (trees_of p.now)) }
{
    let mut out = Vec::new(alloc);
    put(&mut out, &p.first)?;
    if let Some(second) = &p.second {
        out.extend_from_slice(b" ; ")?;
        put(&mut out, second)?;
    }
    Ok(out)
}
