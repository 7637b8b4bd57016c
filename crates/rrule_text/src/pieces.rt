ghost use Rattle.std.specs.Prelude.{◌≡◌, is_some};
ghost use Rattle.rrule_text.specs.Pieces.{are_pieces, has_signs, is_piece, is_value, value_in};

use crate::names::{key, part_of_piece};
use rrule_values::{are_items, are_numbers, day_named, freq_named, is_until_text, number};
use rule_core::Part;

// What stands behind the part's name.
pub(crate) fn value_in(part: Part, piece: &[u8]) -> &[u8]
    ensures { result.now ≡ value_in part piece.now }
{
    piece.get(key(part).len()..).unwrap_or(&[])
}

/// Whether the numbers of the part may have a sign.
pub(crate) fn has_signs(part: Part) -> bool
    ensures { result ≡ has_signs part }
{
    matches!(
        part,
        Part::ByWeekNo | Part::ByYearDay | Part::ByMonthDay | Part::BySetPos
    )
}

#[tactic(auto, unfolding(crate::specs::Pieces::is_value))]
fn is_value(part: Part, value: &[u8]) -> bool
    ensures { result ≡ is_value part value.now }
{
    match part {
        Part::Freq => freq_named(value).is_some(),
        Part::Count | Part::Interval => number(false, value).is_some(),
        Part::ByDay => are_items(value),
        Part::Wkst => day_named(value).is_some(),
        Part::Until => is_until_text(value),
        _ => are_numbers(has_signs(part), value),
    }
}

#[tactic(auto, unfolding(crate::specs::Pieces::is_piece))]
fn is_piece(piece: &[u8]) -> bool
    ensures { result ≡ is_piece piece.now }
{
    match part_of_piece(piece) {
        Some(part) => is_value(part, value_in(part, piece)),
        None => false,
    }
}

/// Whether each piece is of some part, with a value of its form.
#[tactic(auto, unfolding(crate::specs::Pieces::are_pieces))]
pub(crate) fn are_pieces(text: &[u8]) -> bool
    ensures { result ≡ are_pieces text.now }
{
    text.split(|b| *b == b';').all(|piece| is_piece(piece))
}
