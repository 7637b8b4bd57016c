//! What is wrong with the text of a rule of RFC 5545.

use crate::places::{at_byte, plain};
use crate::tokens::Tokens;
use expr_tokens::{Token, Word};
use moment_core::{Moment, Stamp};
use rrule_text::{RruleFault, read_rrule};
use rule_core::{Part, RuleFault};
use std::alloc::{AllocError, Global};

/// The parts of a rule (RFC 5545, 3.3.10).
const PARTS: [Part; 14] = [
    Part::Freq,
    Part::Until,
    Part::Count,
    Part::Interval,
    Part::ByMonth,
    Part::ByWeekNo,
    Part::ByYearDay,
    Part::ByMonthDay,
    Part::ByDay,
    Part::ByHour,
    Part::ByMinute,
    Part::BySecond,
    Part::BySetPos,
    Part::Wkst,
];

/// The name of a part.
fn part_name(part: Part) -> &'static str {
    match part {
        Part::Freq => "FREQ",
        Part::Until => "UNTIL",
        Part::Count => "COUNT",
        Part::Interval => "INTERVAL",
        Part::ByMonth => "BYMONTH",
        Part::ByWeekNo => "BYWEEKNO",
        Part::ByYearDay => "BYYEARDAY",
        Part::ByMonthDay => "BYMONTHDAY",
        Part::ByDay => "BYDAY",
        Part::ByHour => "BYHOUR",
        Part::ByMinute => "BYMINUTE",
        Part::BySecond => "BYSECOND",
        Part::BySetPos => "BYSETPOS",
        _ => "WKST",
    }
}

/// What a part's value may be.
fn values_of(part: Part) -> &'static str {
    match part {
        Part::Freq => "FREQ is YEARLY, MONTHLY, WEEKLY, DAILY, HOURLY, MINUTELY or SECONDLY",
        Part::Until => "UNTIL is written 20241231, 20241231T235959 or 20241231T235959Z",
        Part::Count => "COUNT is a number from 1 to 1000000000",
        Part::Interval => "INTERVAL is a number from 1 to 1000000000",
        Part::ByMonth => "BYMONTH lists numbers from 1 to 12",
        Part::ByWeekNo => "BYWEEKNO lists numbers from 1 to 53, or from -1 to -53 from the end",
        Part::ByYearDay => {
            "BYYEARDAY lists numbers from 1 to 366, or from -1 to -366 from the end"
        }
        Part::ByMonthDay => {
            "BYMONTHDAY lists numbers from 1 to 31, or from -1 to -31 from the end"
        }
        Part::ByDay => {
            "BYDAY lists MO, TU, WE, TH, FR, SA and SU, each also as 2TU or -1FR, with numbers to \
             53"
        }
        Part::ByHour => "BYHOUR lists numbers from 0 to 23",
        Part::ByMinute => "BYMINUTE lists numbers from 0 to 59",
        Part::BySecond => "BYSECOND lists numbers from 0 to 60",
        Part::BySetPos => {
            "BYSETPOS lists numbers from 1 to 366, or from -1 to -366 from the end"
        }
        _ => "WKST is MO, TU, WE, TH, FR, SA or SU",
    }
}

/// Why two parts don't go together.
fn mix_text(first: Part, second: Part) -> &'static str {
    match (first, second) {
        (Part::Until, Part::Count) => "a rule ends by UNTIL or by COUNT, not by both",
        (Part::Until, _) => "UNTIL has a Z and the rule's DTSTART has none",
        (Part::ByWeekNo, _) => "BYWEEKNO goes with FREQ=YEARLY alone",
        (Part::ByYearDay, _) => {
            "BYYEARDAY doesn't go with FREQ=DAILY, FREQ=WEEKLY and FREQ=MONTHLY"
        }
        (Part::ByMonthDay, _) => "BYMONTHDAY doesn't go with FREQ=WEEKLY",
        (Part::ByDay, Part::ByWeekNo) => {
            "a weekday with a number, as 2TU, doesn't go with BYWEEKNO"
        }
        (Part::ByDay, _) => {
            "a weekday with a number, as 2TU, goes with FREQ=MONTHLY and FREQ=YEARLY alone"
        }
        _ => "BYSETPOS goes with another part whose name begins with BY",
    }
}

/// A DTSTART with which each part is tried alone.
const START: Stamp = Stamp {
    moment: Moment(0),
    absolute: false,
};

/// A part as it stands in a rule, and where it begins.
#[derive(Clone, Copy)]
struct Piece {
    start: usize,
    end: usize,
}

/// The text of a rule with letters in upper case, and its pieces between semicolons.
#[derive(Drop)]
struct Pieces {
    text: Vec<u8>,
    pieces: Vec<Piece>,
}

/// The pieces of a rule's text, without `RRULE:` and without an empty last one.
fn pieces_of(alloc: Global, rule: &[u8]) -> Result<Pieces, AllocError> {
    let text = rule.to_ascii_uppercase(alloc)?;
    let mut pieces = Vec::new(alloc);
    let mut start = if text.as_slice().starts_with(b"RRULE:") {
        6
    } else {
        0
    };
    for (i, b) in text.as_slice().iter().enumerate() {
        if *b == b';' {
            pieces.push(Piece { start, end: i })?;
            start = i.saturating_add(1);
        }
    }
    let end = text.len();
    if start < end {
        pieces.push(Piece { start, end })?;
    }
    Ok(Pieces { text, pieces })
}

impl Pieces {
    /// The bytes of a piece.
    fn bytes(&self, piece: Piece) -> &[u8] {
        self.text
            .as_slice()
            .get(piece.start..piece.end)
            .unwrap_or(&[])
    }

    /// The part whose name stands in front of a piece.
    fn part(&self, piece: Piece) -> Option<Part> {
        let bytes = self.bytes(piece);
        for part in PARTS {
            let name = part_name(part).as_bytes();
            if let Some([b'=', ..]) = bytes.strip_prefix(name) {
                return Some(part);
            }
        }
        None
    }

    /// Where a part's piece begins that has so many before it, or else the rule's first byte.
    fn place(&self, part: Part, before: usize) -> usize {
        let mut passed = 0usize;
        for piece in self.pieces.as_slice() {
            if self.part(*piece) == Some(part) {
                if passed == before {
                    return piece.start;
                }
                passed = passed.saturating_add(1);
            }
        }
        0
    }

    /// Where a part stands again for the first time.
    fn repeated(&self, part: Part) -> usize {
        self.place(part, 1)
    }

    /// Whether the piece of a part is of its form.
    fn is_formed(&self, alloc: Global, piece: Piece, part: Part) -> Result<bool, AllocError> {
        let mut rule = Vec::new(alloc);
        if part != Part::Freq {
            rule.extend_from_slice(b"FREQ=DAILY;")?;
        }
        rule.extend_from_slice(self.bytes(piece))?;
        match read_rrule(alloc, rule.as_slice(), START) {
            Err(RruleFault::Syntax) => Ok(false),
            _ => Ok(true),
        }
    }

    /// The first piece that isn't of the form of a part, and what is wrong with it.
    fn misspelled(&self, alloc: Global) -> Result<(usize, &'static str), AllocError> {
        for piece in self.pieces.as_slice() {
            match self.part(*piece) {
                None => return Ok((piece.start, "RFC 5545 has no part of this name")),
                Some(part) => {
                    if !self.is_formed(alloc, *piece, part)? {
                        return Ok((piece.start, values_of(part)));
                    }
                }
            }
        }
        Ok((0, "FREQ is missing"))
    }
}

/// Where in a rule's text a fault stands, and what is wrong.
fn wrong_in(alloc: Global, rule: &[u8], fault: RruleFault) -> Result<(usize, String), AllocError> {
    let pieces = pieces_of(alloc, rule)?;
    let (at, what) = match fault {
        RruleFault::Memory => return Err(AllocError),
        RruleFault::Syntax => pieces.misspelled(alloc)?,
        RruleFault::Repeated(part) => {
            let name = part_name(part);
            let what = format!(in alloc; "{name} stands in this rule before")?;
            return Ok((pieces.repeated(part), what));
        }
        RruleFault::Rule(RuleFault::BadMix(first, second)) => {
            (pieces.place(first, 0), mix_text(first, second))
        }
        RruleFault::Rule(RuleFault::BadValue(part)) => (pieces.place(part, 0), values_of(part)),
        RruleFault::Rule(RuleFault::BadInterval) => {
            (pieces.place(Part::Interval, 0), values_of(Part::Interval))
        }
    };
    Ok((at, String::from_str(alloc, what)?))
}

/// A message on a text in which the text of a rule of RFC 5545 has a fault.
pub(crate) fn of_rrule(alloc: Global, tokens: &Tokens<'_, '_>) -> Result<String, AllocError> {
    for (i, token) in tokens.found.iter().enumerate() {
        let behind = tokens.found.get(i..).unwrap_or(&[]);
        if let [
            Token::Word(Word::Rrule, _),
            Token::Open,
            Token::Text(rule),
            Token::Comma,
            Token::Moment(Some(start), _),
            ..
        ] = behind
        {
            if let Err(fault) = read_rrule(alloc, rule, *start) {
                let (at, what) = wrong_in(alloc, rule, fault)?;
                let byte = tokens
                    .place(i.saturating_add(2))
                    .saturating_add(1)
                    .saturating_add(at);
                return at_byte(alloc, tokens.text, byte, what.as_str());
            }
        }
    }
    plain(alloc, "the text of a rule of RFC 5545 has a fault")
}
