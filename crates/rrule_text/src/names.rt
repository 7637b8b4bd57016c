ghost use Rattle.std.specs.Prelude.{◌≡◌};
ghost use Rattle.rrule_text.specs.Names.{key_of};
ghost use Rattle.rrule_text.specs.Pieces.{is_of, part_of_piece};

use rule_core::Part;

// The parts of a text, in the order of the written form.
const PARTS: [Part; 14] = [
    Part::Freq,
    Part::Until,
    Part::Count,
    Part::Interval,
    Part::ByMonth,
    Part::ByWeekNo,
    Part::ByYearDay,
    Part::ByMonthDay,
    Part::ByDay,
    Part::ByHour,
    Part::ByMinute,
    Part::BySecond,
    Part::BySetPos,
    Part::Wkst,
];

/// The name of a part, with a `=`.
pub(crate) fn key(part: Part) -> &'static [u8]
    ensures { result.now ≡ key_of part }
{
    match part {
        Part::Freq => b"FREQ=",
        Part::Until => b"UNTIL=",
        Part::Count => b"COUNT=",
        Part::Interval => b"INTERVAL=",
        Part::ByMonth => b"BYMONTH=",
        Part::ByWeekNo => b"BYWEEKNO=",
        Part::ByYearDay => b"BYYEARDAY=",
        Part::ByMonthDay => b"BYMONTHDAY=",
        Part::ByDay => b"BYDAY=",
        Part::ByHour => b"BYHOUR=",
        Part::ByMinute => b"BYMINUTE=",
        Part::BySecond => b"BYSECOND=",
        Part::BySetPos => b"BYSETPOS=",
        Part::Wkst => b"WKST=",
        _ => b"",
    }
}

/// Whether the piece begins with the part's name and a `=`.
#[tactic(auto, unfolding(crate::specs::Pieces::is_of))]
pub(crate) fn is_of(part: Part, piece: &[u8]) -> bool
    ensures { result ≡ is_of part piece.now }
{
    piece.starts_with(key(part))
}

/// The part that the piece is of.
#[tactic(auto, unfolding(crate::specs::Pieces::part_of_piece))]
pub(crate) fn part_of_piece(piece: &[u8]) -> Option<Part>
    ensures { result ≡ part_of_piece piece.now }
{
    PARTS.iter().copied().find(|part| is_of(*part, piece))
}
