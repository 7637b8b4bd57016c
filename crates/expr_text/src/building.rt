ghost use Rattle.std.specs.Prelude.{◌≡◌, ◌∷◌, [], map, IfErr, IfOk, Option, Some};
ghost use Rattle.std.specs.List.{filter_map};
ghost use Rattle.expr_grammar.specs.Form.{Form, Binary as BinaryForm, Rrule as RruleForm, Rule as RuleForm, Span as SpanForm, Unary as UnaryForm};
ghost use Rattle.expr_grammar.specs.Made.{IsDated, IsMade};
ghost use Rattle.expr_grammar.specs.Syntax.{all_places_of, field_form, form_of, forms_of, places_of};
ghost use Rattle.expr_text.specs.Making.{AreBothMade, Begins, IsMadeOf, Makes, MakesAll};
ghost use Rattle.expr_text.specs.Fault.{HasNoInnerMemory};
ghost use Rattle.expr_text.specs.Phases.{AreBoth};
ghost use Rattle.expr_text.specs.Trees.{binary_tree, bound_of, clock_of};
ghost use Rattle.expr_tree.specs.Tree.{Unary as UnaryTree, tree_of};
ghost use Rattle.moment_core.specs.declared.line.Stamp.{Stamp as TheStamp};

use crate::fault::TextFault;
use crate::rules::rule;
use expr_grammar::{BinaryOp, Field, SpanBound, SyntaxTree, SyntaxTrees};
use expr_tree::{Expr, Program, Stamps};
use moment_core::{Clock, Op, Stamp, UnaryOp};
use rrule_text::{RruleFault, read_rrule};
use rule_core::{Freq, RuleFault};
use span_core::{Bound, Empty, Span};
use std::alloc::{AllocError, Global};

/// Why an expression has no set.
#[derive(Clone, Copy)]
pub(crate) enum Unmade {
    /// The fault of its first rule by fields that has one.
    Rule(RuleFault),
    /// Where no rule by fields has one, the fault of its first text of a rule of RFC 5545.
    Rrule(RruleFault),
}

/// The set of an expression, or why it has none.
type Made = Result<Expr, Unmade>;

/// A step from an expression to its leftmost part.
#[derive(Drop)]
pub(crate) enum Step<'t> {
    /// To the one expression that it is made of.
    Inner(UnaryOp),
    /// To the first of two, before the second.
    First(BinaryOp, &'t SyntaxTree),
}

/// The bound that is written; one that isn't is infinite.
fn bound(written: Option<SpanBound>) -> Bound
    ensures { result ≡ bound_of written }
{
    match written {
        Some(
            SpanBound {
                closed: true,
                stamp: Some(stamp),
            },
        ) => Bound::Closed(stamp.moment),
        Some(
            SpanBound {
                closed: false,
                stamp: Some(stamp),
            },
        ) => Bound::Open(stamp.moment),
        _ => Bound::Inf,
    }
}

/// The clock of a bound that is written; one that isn't has any.
fn clock(written: Option<SpanBound>) -> Clock
    ensures { result ≡ clock_of written }
{
    match written {
        Some(
            SpanBound {
                stamp: Some(stamp),
                ..
            },
        ) => stamp.clock(),
        _ => Clock::Any,
    }
}

/// The moments that the literals name.
fn stamps(alloc: Global, literals: &[Option<Stamp>]) -> Result<Vec<Stamp>, AllocError>
    ensures { IfOk result (λ found.
        found.items ≡ filter_map (λ (m : Option TheStamp). m) literals.now) }
{
    literals
        .iter()
        .filter_map(|literal| *literal)
        .collect(alloc)
}

/// The span between the bounds, or the place of its name where no position lies there.
fn span(place: usize, low: Option<SpanBound>, high: Option<SpanBound>) -> Result<Made, TextFault>
    requires { IsMade IsDated (SpanForm low high) }
    ensures made { Makes (SpanForm low high) (place ∷ []) result }
    ensures memory { IfErr result HasNoInnerMemory }
{
    match Span::new(bound(low), bound(high)) {
        Ok(span) => Ok(Ok(Expr::Span(span, clock(low), clock(high)))),
        Err(Empty) => Err(TextFault::Moment { byte: place }),
    }
}

/// The moments of the rule that the fields stand for.
fn field(alloc: Global, freq: Freq, fields: &[Field]) -> Result<Made, AllocError>
    requires { IsMade IsDated (RuleForm freq (map field_form fields.now)) }
    ensures { IfOk result (IsMadeOf (RuleForm freq (map field_form fields.now))) }
{
    let rule = rule(alloc, freq, fields)?;
    match rule.check() {
        Ok(()) => Ok(Ok(Expr::Field(rule))),
        Err(fault) => Ok(Err(Unmade::Rule(fault))),
    }
}

/// The moments of the rule of RFC 5545 that the text writes.
fn recurrence(alloc: Global, text: &[u8], start: Option<Stamp>) -> Result<Made, TextFault>
    requires { IsMade IsDated (RruleForm text.now start) }
    ensures made { Makes (RruleForm text.now start) [] result }
    ensures memory { IfErr result HasNoInnerMemory }
{
    match read_rrule(alloc, text, start.unwrap()) {
        Ok(rule) => Ok(Ok(Expr::Rrule(rule))),
        Err(RruleFault::Memory) => Err(TextFault::Memory),
        Err(fault) => Ok(Err(Unmade::Rrule(fault))),
    }
}

/// The sets of two expressions, or the fault that decides: one of a rule by fields before one of a
/// rule's text, and the first of either kind.
fn both(a: Made, b: Made) -> Result<(Expr, Expr), Unmade>
    ensures { (t u : Form) → IsMadeOf t a → IsMadeOf u b → AreBothMade t u result }
{
    match a {
        Err(Unmade::Rule(fault)) => Err(Unmade::Rule(fault)),
        Err(Unmade::Rrule(first)) => match b {
            Err(Unmade::Rule(fault)) => Err(Unmade::Rule(fault)),
            _ => Err(Unmade::Rrule(first)),
        },
        Ok(a) => match b {
            Err(fault) => Err(fault),
            Ok(b) => Ok((a, b)),
        },
    }
}

/// The set that is made of one.
fn unary_set(alloc: Global, op: UnaryOp, a: Expr) -> Result<Expr, AllocError>
    ensures { IfOk result (λ e. tree_of e ≡ UnaryTree op (tree_of a)) }
{
    let a = Box::new(alloc, a)?;
    Ok(match op {
        UnaryOp::Not => Expr::Not(a),
        UnaryOp::During(seconds) => Expr::During(a, seconds),
        UnaryOp::Starts => Expr::Starts(a),
        UnaryOp::Ends => Expr::Ends(a),
        UnaryOp::Shift(seconds) => Expr::Shift(a, seconds),
    })
}

/// The set that is made of two.
fn binary_set(alloc: Global, op: BinaryOp, a: Expr, b: Expr) -> Result<Expr, AllocError>
    ensures { IfOk result (λ e. tree_of e ≡ binary_tree op (tree_of a) (tree_of b)) }
{
    let a = Box::new(alloc, a)?;
    let b = Box::new(alloc, b)?;
    Ok(match op {
        BinaryOp::Infix(Op::Union) => Expr::Union(a, b),
        BinaryOp::Infix(Op::Meet) => Expr::Meet(a, b),
        BinaryOp::Infix(Op::Minus) => Expr::Minus(a, b),
        BinaryOp::Pairs => Expr::Pairs(a, b),
    })
}

/// What is made of one expression.
fn unary(alloc: Global, op: UnaryOp, a: Made) -> Result<Made, AllocError>
    ensures { IfOk result (λ made. (t : Form) → IsMadeOf t a → IsMadeOf (UnaryForm op t) made) }
{
    match a {
        Err(fault) => Ok(Err(fault)),
        Ok(a) => Ok(Ok(unary_set(alloc, op, a)?)),
    }
}

/// What is made of two expressions.
fn binary(alloc: Global, op: BinaryOp, a: Made, b: Made) -> Result<Made, AllocError>
    ensures { IfOk result (λ made.
        (t u : Form) → IsMadeOf t a → IsMadeOf u b → IsMadeOf (BinaryForm op t u) made) }
{
    match both(a, b) {
        Err(fault) => Ok(Err(fault)),
        Ok((a, b)) => Ok(Ok(binary_set(alloc, op, a, b)?)),
    }
}

/// The set of the leftmost part of an expression, and the steps to it.
fn leftmost<'t>(alloc: Global, tree: &'t SyntaxTree) -> Result<(Made, Vec<Step<'t>>), TextFault>
    requires { IsMade IsDated (form_of tree.now) }
    ensures made { Begins (form_of tree.now) (places_of tree.now) result }
    ensures memory { IfErr result HasNoInnerMemory }
{
    let mut steps = Vec::new(alloc);
    let mut left = tree;
    'left: loop {
        match left {
            SyntaxTree::Empty => return Ok((Ok(Expr::Empty), steps)),
            SyntaxTree::List(literals) => {
                return Ok((Ok(Expr::List(Stamps::of(stamps(alloc, literals)?))), steps));
            }
            SyntaxTree::Span { place, low, high } => {
                return Ok((span(*place, *low, *high)?, steps));
            }
            SyntaxTree::Rule { freq, fields } => return Ok((field(alloc, *freq, fields)?, steps)),
            SyntaxTree::Rrule { text, start } => {
                return Ok((recurrence(alloc, text, *start)?, steps));
            }
            SyntaxTree::Binary(op, a, b) => {
                steps.push(Step::First(*op, b))?;
                left = a;
            }
            SyntaxTree::Unary(op, a) => {
                steps.push(Step::Inner(*op))?;
                left = a;
            }
        }
    }
}

/// The set of an expression, or the place of its first span that has no position.
///
/// A chain of operators is long on its left side, which a loop goes down and up again.
fn make(alloc: Global, tree: &SyntaxTree) -> Result<Made, TextFault>
    requires { IsMade IsDated (form_of tree.now) }
    ensures made { Makes (form_of tree.now) (places_of tree.now) result }
    ensures memory { IfErr result HasNoInnerMemory }
{
    let (mut made, mut steps) = leftmost(alloc, tree)?;
    'steps: while let Some(step) = steps.pop() {
        match step {
            Step::First(op, second) => {
                let second = make(alloc, second)?;
                made = binary(alloc, op, made, second)?;
            }
            Step::Inner(op) => made = unary(alloc, op, made)?,
        }
    }
    Ok(made)
}

/// The sets of one or two expressions, or the first fault: the place of the first span that has no
/// position, then the fault of the first rule by fields that has one, then that of the first text
/// of a rule that has one.
pub fn make_all(alloc: Global, trees: &SyntaxTrees) -> Result<Program, TextFault>
    requires { AreBoth (IsMade IsDated) (forms_of trees.now) }
    ensures made { MakesAll (forms_of trees.now) (all_places_of trees.now) result }
    ensures memory { IfErr result HasNoInnerMemory }
{
    let first = make(alloc, &trees.first)?;
    let Some(second) = &trees.second else {
        return Ok(Program {
            first: first?,
            second: None,
        });
    };
    let second = make(alloc, second)?;
    let (first, second) = both(first, second)?;
    Ok(Program {
        first,
        second: Some(second),
    })
}
