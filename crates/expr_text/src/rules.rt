ghost use Rattle.std.specs.Prelude.{◌≡◌, ◌∷◌, map, List, Some, IfNone, IfOk, IfSome};
ghost use Rattle.std.specs.List.{AllByRecursion};
ghost use Rattle.expr_grammar.specs.Fields.{key_place};
ghost use Rattle.expr_grammar.specs.Form.{FieldForm};
ghost use Rattle.expr_grammar.specs.Made.{FieldHas, IsDated};
ghost use Rattle.expr_grammar.specs.Syntax.{field_form};
ghost use Rattle.expr_text.specs.Rules.{first_of, literal_in, numbers_of, rule_from, start_from};

use expr_grammar::{Field, Key};
use moment_core::Stamp;
use rule_core::{FieldRule, Freq, Signed};
use std::alloc::{AllocError, Global};

/// The place of the key in the printed order.
fn place(key: Key) -> u8
    ensures { result ≡ key_place key }
{
    match key {
        Key::Months => 0,
        Key::Weeks => 1,
        Key::Days => 2,
        Key::Hours => 3,
        Key::Minutes => 4,
        Key::Seconds => 5,
        Key::Interval => 6,
        Key::WeekStart => 8,
    }
}

/// The numbers of the field, where it has this key.
fn numbers_in<'f>(field: &'f Field, key: Key) -> Option<&'f [i64]>
    ensures some { IfSome result (λ values. (rest : List FieldForm) →
        numbers_of key (field_form field.now ∷ rest) ≡ values.now) }
    ensures none { IfNone result ((rest : List FieldForm) →
        numbers_of key (field_form field.now ∷ rest) ≡ numbers_of key rest) }
{
    match field {
        Field::Values(other, values) => {
            if place(*other) == place(key) {
                Some(values.as_slice())
            } else {
                None
            }
        }
        Field::Start(_) => None,
    }
}

/// The numbers of a key, none where its field isn't given.
fn numbers<'f>(fields: &'f [Field], key: Key) -> &'f [i64]
    ensures { result.now ≡ numbers_of key (map field_form fields.now) }
{
    for field in fields {
        if let Some(values) = numbers_in(field, key) {
            return values;
        }
    }
    &[]
}

fn first_number(fields: &[Field], key: Key) -> Option<i64>
    ensures { result ≡ first_of (numbers_of key (map field_form fields.now)) }
{
    match numbers(fields, key) {
        [n, ..] => Some(*n),
        [] => None,
    }
}

fn signed(alloc: Global, fields: &[Field], key: Key) -> Result<Signed, AllocError>
    ensures { IfOk result (λ values. values ≡ numbers_of key (map field_form fields.now)) }
{
    Ok(Signed::of(numbers(fields, key).to_vec(alloc)?))
}

/// The literal of the start, where a start is given.
fn literal(fields: &[Field]) -> Option<Option<Stamp>>
    ensures { result ≡ literal_in (map field_form fields.now) }
{
    for field in fields {
        if let Field::Start(literal) = field {
            return Some(*literal);
        }
    }
    None
}

/// The start, each literal of which names a moment.
fn start(fields: &[Field]) -> Option<Stamp>
    requires { AllByRecursion (FieldHas IsDated) (map field_form fields.now) }
    ensures { start_from (literal_in (map field_form fields.now)) ≡ Some result }
{
    match literal(fields) {
        Some(literal) => literal,
        None => None,
    }
}

/// The rule that the fields stand for.
pub(crate) fn rule(alloc: Global, freq: Freq, fields: &[Field]) -> Result<FieldRule, AllocError>
    requires { AllByRecursion (FieldHas IsDated) (map field_form fields.now) }
    ensures { IfOk result (λ rule. rule_from freq (map field_form fields.now) ≡ Some rule) }
{
    Ok(FieldRule {
        freq,
        months: signed(alloc, fields, Key::Months)?,
        weeks: signed(alloc, fields, Key::Weeks)?,
        days: signed(alloc, fields, Key::Days)?,
        hours: signed(alloc, fields, Key::Hours)?,
        minutes: signed(alloc, fields, Key::Minutes)?,
        seconds: signed(alloc, fields, Key::Seconds)?,
        interval: first_number(fields, Key::Interval).unwrap_or(1),
        start: start(fields),
        week_start: first_number(fields, Key::WeekStart),
    })
}
