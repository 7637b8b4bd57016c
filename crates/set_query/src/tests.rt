//! Queries over texts, by the lines that they are answered with.
//!
//! The files in rows/ at the top have these rows and many more, which the built program answers.
//! Here are some of each kind, and those in which a read or a write fails.

ghost use Rattle.std.specs.Prelude.{◌≡◌, ◌⊎◌, ◌<◌, Some, map};
ghost use Rattle.std.specs.String.{string_bytes};
ghost use Rattle.stored_pair.specs.Meanings.{nothing};
ghost use Rattle.set_query.specs.Effects.{Answers};

use crate::query::run;
use moment_core::Steps;
use outside_core::{Got, MemSink, MemSource, Sink, Source, SureSink, SureSource};
use std::alloc::{AllocError, Global};
use std::marker::Brand;
use std::process::Abort;
use std::sync::ledger::{Blank, Ledger};
use std::test::Fail;
use stored_pair::Book;

/// What a query is answered with.
#[derive(Clone, Copy)]
struct Row<'a> {
    words: &'a str,
    text: &'a str,
    status: u8,
    /// Parted by ` / `.
    lines: &'a str,
}

/// The row of a line `WORDS < TEXT -> STATUS LINE / LINE ..`, which has no status where it is 0.
fn row_of(line: &str) -> Option<Row> {
    let (words, rest) = line.split_once(" < ")?;
    let (text, answer) = rest.split_once(" -> ")?;
    let (first, behind) = answer.split_once(" ").unwrap_or((answer, ""));
    let (status, lines) = match first.parse::<u8>() {
        Ok(status) => (status, behind),
        Err(_) => (0, answer),
    };
    Some(Row {
        words,
        text,
        status,
        lines,
    })
}

fn words_of(alloc: Global, line: &str) -> Result<Vec<String>, AllocError> {
    let mut words = Vec::new(alloc);
    for word in line.split_whitespace() {
        words.push(String::from_str(alloc, word)?)?;
    }
    Ok(words)
}

/// The lines as they are written.
fn written_of(alloc: Global, lines: &str) -> Result<String, AllocError> {
    let mut written = lines.replace(alloc, " / ", "\n")?;
    if !lines.is_empty() {
        written.push_str("\n")?;
    }
    Ok(written)
}

// Without faults the status and the line are those of the words and the text, over a book without
// entries, unless memory runs out.
fn run_sure<L: Ledger>(
    alloc: Global,
    words: &[String],
    source: &mut SureSource,
    sink: &mut SureSink,
    blank: Blank,
) -> u8
    requires name { blank.name ≡ L.name }
    requires parts { blank.parts ≡ L.parts }
    requires some { 0 < blank.parts }
    ensures { Answers ⟦<SureSink as Sink>⟧ sink.old sink.new (λ name. nothing)
        (map string_bytes words.now) (Some source.old) result ⊎ (result ≡ 6) }
{
    let book = Book::empty(alloc);
    let mut steps = Steps::<L>::new(blank);
    run(alloc, words, &book, source, sink, &mut steps)
}

fn run_with_faults<L: Ledger>(
    alloc: Global,
    words: &[String],
    source: &mut MemSource,
    sink: &mut MemSink,
    blank: Blank,
) -> u8
    requires name { blank.name ≡ L.name }
    requires parts { blank.parts ≡ L.parts }
    requires some { 0 < blank.parts }
{
    let book = Book::empty(alloc);
    let mut steps = Steps::<L>::new(blank);
    run(alloc, words, &book, source, sink, &mut steps)
}

fn answer(alloc: Global, words: &[String], source: &mut SureSource, sink: &mut SureSink) -> u8 {
    run_sure::<Brand>(alloc, words, source, sink, Blank::new(1))
}

fn answer_with_faults(
    alloc: Global,
    words: &[String],
    source: &mut MemSource,
    sink: &mut MemSink,
) -> u8 {
    run_with_faults::<Brand>(alloc, words, source, sink, Blank::new(1))
}

/// The status and what was written are those of the row.
fn are_those_of(
    rt: &impl Abort,
    alloc: Global,
    row: Row,
    status: u8,
    taken: &[u8],
) -> Result<(), AllocError> {
    let Row { words, text, .. } = row;
    let written = written_of(alloc, row.lines)?;
    assert_eq!(rt; status, row.status, "{text} at {words}");
    assert!(rt; taken == written.as_bytes(), "{text} at {words}");
    Ok(())
}

/// The row's query ends with its status and writes its lines.
fn is_answered(rt: &impl Abort, alloc: Global, row: Row) -> Result<(), AllocError> {
    let words = words_of(alloc, row.words)?;
    let mut source = SureSource::new(Vec::from_slice(alloc, row.text.as_bytes())?);
    let mut sink = SureSink::new(alloc, 256)?;
    let status = answer(alloc, &words, &mut source, &mut sink);
    are_those_of(rt, alloc, row, status, sink.taken())
}

/// Each row is answered.
fn are_answered(rt: &impl Abort, alloc: Global, rows: &str) -> Result<(), AllocError> {
    assert!(rt; !rows.is_empty(), "no rows");
    for line in rows.lines() {
        let Some(row) = row_of(line) else {
            panic!(rt; "no row: {line}");
        };
        is_answered(rt, alloc, row)?;
    }
    Ok(())
}

/// The read and the write that fail, counted from 0.
#[derive(Clone, Copy)]
struct Faults {
    read: Option<u64>,
    write: Option<u64>,
}

/// The fault that a line begins with, as `read N: ` or `write N: `, and the row behind it.
fn faulty_row_of(line: &str) -> Option<(Faults, Row)> {
    let (fault, row) = line.split_once(": ")?;
    let (step, place) = fault.split_once(" ")?;
    let place = Some(place.parse::<u64>().ok()?);
    let faults = match step {
        "read" => Faults {
            read: place,
            write: None,
        },
        "write" => Faults {
            read: None,
            write: place,
        },
        _ => return None,
    };
    Some((faults, row_of(row)?))
}

fn places(alloc: Global, place: Option<u64>) -> Result<Vec<u64>, AllocError> {
    let mut places = Vec::new(alloc);
    if let Some(place) = place {
        places.push(place)?;
    }
    Ok(places)
}

/// The status that the words over the source end with.
fn status_of(
    alloc: Global,
    words: &str,
    source: &mut MemSource,
    sink: &mut MemSink,
) -> Result<u8, AllocError> {
    let words = words_of(alloc, words)?;
    Ok(answer_with_faults(alloc, &words, source, sink))
}

/// With these faults the row's query ends with its status and writes its lines.
fn is_answered_with_faults(
    rt: &impl Abort,
    alloc: Global,
    faults: Faults,
    row: Row,
) -> Result<(), AllocError> {
    let text = Vec::from_slice(alloc, row.text.as_bytes())?;
    let mut source = MemSource::new(text, places(alloc, faults.read)?);
    let mut sink = MemSink::new(alloc, 64, places(alloc, faults.write)?)?;
    let status = status_of(alloc, row.words, &mut source, &mut sink)?;
    are_those_of(rt, alloc, row, status, sink.taken())
}

/// Each row is answered with its fault.
fn are_answered_with_faults(rt: &impl Abort, alloc: Global, rows: &str) -> Result<(), AllocError> {
    assert!(rt; !rows.is_empty(), "no rows");
    for line in rows.lines() {
        let Some((faults, row)) = faulty_row_of(line) else {
            panic!(rt; "no row: {line}");
        };
        is_answered_with_faults(rt, alloc, faults, row)?;
    }
    Ok(())
}

#[test]
fn the_runs_round_a_moment_are_written(rt: HostRuntime) -> Result<(), Fail> {
    const ROWS: &str = "\
next at=2024-02-29T00:00:00 < monthly(days=29) -> 2024-03-29T00:00:00
next at=2003-01-01T00:00:00 < !{2003-01-01T00:00:00} -> (2003-01-01T00:00:00 .. inf)
next at=2023-12-31T00:00:00Z < {2024-01-01T00:00:00Z} -> 2024-01-01T00:00:00Z
next at=2003-01-01T00:00:00 < empty() -> none 2003-01-01T00:00:00 .. 2003-01-01T00:00:01
next at=9900-12-31T00:00:00 < monthly(days=31) -> edge
next at=2024-01-01T00:00:00 budget=27 < monthly(days=29) -> 3 budget 3412800000 0
previous at=2024-01-01T00:00:00 < weekly(days=1) -> 2023-12-25T00:00:00
current at=2024-01-02T00:00:00 < weekly(days=1) -> 2024-01-01T00:00:00
closest at=2003-01-01T00:00:00 < !{2003-01-01T00:00:00} -> (-inf .. 2003-01-01T00:00:00)
contains at=2024-01-01T00:00:59 < during({2024-01-01T00:00:00}, 60) -> yes
contains at=2024-01-01T00:01:00 < during({2024-01-01T00:00:00}, 60) -> no
";
    are_answered(&rt, rt.alloc(), ROWS)?;
    Ok(())
}

#[test]
fn walks_are_written_and_go_on_from_tokens(rt: HostRuntime) -> Result<(), Fail> {
    const ROWS: &str = "\
walk < !{2003-01-01T00:00:00} -> (-inf .. 2003-01-01T00:00:00) / (2003-01-01T00:00:00 .. inf) / end
walk dir=back < pairs({2024-01-01T00:00:10}, {2024-01-01T00:00:00}) -> \
    [2024-01-01T00:00:10 .. inf) / edge
walk limit=1 < starts(span(start -9900-01-01T00:00:00)) -> \
    -9900-01-01T00:00:00 / more fore:-749161958399:-:500556326398
walk from=2024-01-01T00:00:00 to=2024-01-02T12:00:00 budget=1 < daily(hours=9) -> \
    3 2024-01-01T09:00:00 / budget fore:3408307200:-:3408393600
resume token=fore:3408307200:-:3408393600 < daily(hours=9) -> 2024-01-02T09:00:00 / end
resume token=back:3408220800:3408249600:3408134400 < \
    during(weekly(days=1,2,3,4,5 hours=9), 28800) -> \
    [2024-01-01T09:00:00 .. 2024-01-01T16:00:00] / end
";
    are_answered(&rt, rt.alloc(), ROWS)?;
    Ok(())
}

#[test]
fn rules_are_met(rt: HostRuntime) -> Result<(), Fail> {
    const ROWS: &str = "\
next at=2024-01-01T00:00:00 < yearly(days=-366) -> 2028-01-01T00:00:00
next at=2021-01-01T00:00:00 < yearly(weeks=53) -> 2026-12-28T00:00:00
next at=2023-02-10T00:00:00 < monthly(days=30,-30 hours=6,18) -> 2023-03-02T06:00:00
next at=2024-01-01T00:00:00 < weekly(days=3 interval=3 week_start=5) -> 2024-01-17T00:00:00
next at=2024-02-28T09:30:00 < daily(hours=9,23 minutes=-30) -> 2024-02-28T23:30:00
next at=2024-01-01T00:00:00 < hourly(minutes=15 interval=25) -> 2024-01-01T23:15:00
next at=0000-02-28T23:59:59 < minutely(seconds=30) -> 0000-02-29T00:00:30
next at=2024-01-01T00:00:00 < secondly(interval=86401) -> 2024-01-01T05:28:43
next at=2024-01-01T00:00:00 < monthly(days=13) & weekly(days=5) -> 2024-09-13T00:00:00
next at=2024-01-04T12:00:00 < rrule(\"FREQ=DAILY;UNTIL=20240105\", 2024-01-01T12:00:00) -> \
    2024-01-05T12:00:00
next at=1998-03-13T09:00:00 < \
    rrule(\"FREQ=MONTHLY;BYDAY=FR;BYMONTHDAY=13\", 1997-09-02T09:00:00) -> 1998-11-13T09:00:00
next at=1997-10-07T09:00:00 < \
    rrule(\"FREQ=MONTHLY;COUNT=3;BYDAY=TU,WE,TH;BYSETPOS=3\", 1997-09-04T09:00:00) -> \
    1997-11-06T09:00:00
";
    are_answered(&rt, rt.alloc(), ROWS)?;
    Ok(())
}

#[test]
fn spans_made_from_sets_are_written_or_looked_back_for(rt: HostRuntime) -> Result<(), Fail> {
    const ROWS: &str = "\
previous at=2024-01-02T06:00:00 < during(daily(hours=22), 28800) -> \
    [2024-01-01T22:00:00 .. 2024-01-02T06:00:00)
next at=2024-01-01T10:00:00 < ends(during(daily(hours=9), 28800)) -> 2024-01-01T17:00:00
next at=2024-01-01T00:00:00 < shift(!{2024-01-01T00:00:00}, 5) -> (2024-01-01T00:00:05 .. inf)
contains at=2024-01-02T01:00:00 budget=1 < during(daily(hours=9), 28800) -> 3 budget 3408307200 1
contains at=2024-01-02T01:00:00 budget=2 < during(daily(hours=9), 28800) -> no
";
    are_answered(&rt, rt.alloc(), ROWS)?;
    Ok(())
}

#[test]
fn texts_are_shown_in_their_one_form(rt: HostRuntime) -> Result<(), Fail> {
    const ROWS: &str = "\
show < !(empty( )|{2024-01-01T00:00:00}) -> !(empty() | {2024-01-01T00:00:00})
show < !daily()-secondly();hourly() -> !daily() - secondly() ; hourly()
show < minutely(start=-0001-12-31T23:59:59 seconds=5) -> \
    minutely(seconds=5 start=-0001-12-31T23:59:59)
show < shift(empty(),-0060) -> shift(empty(), -60)
show < rrule(\"FREQ=DAILY\", 2024-01-01T09:30:00) -> rrule(\"FREQ=DAILY\", 2024-01-01T09:30:00)
show < \
    rrule(\"FREQ=YEARLY;UNTIL=20251231;INTERVAL=2;WKST=SU;BYMONTH=12,1\", 2024-01-01T09:30:00) -> \
    rrule(\"FREQ=YEARLY;UNTIL=20251231T235959;INTERVAL=2;BYMONTH=1,12;WKST=SU\", \
    2024-01-01T09:30:00)
";
    are_answered(&rt, rt.alloc(), ROWS)?;
    Ok(())
}

#[test]
fn what_cannot_be_answered_is_refused(rt: HostRuntime) -> Result<(), Fail> {
    const ROWS: &str = "\
--help < monthly(days=29) -> 2 refused words 0
next < monthly(days=29) -> 2 refused words 1
load < empty() -> 2 refused unbuilt
show < empty() @ -> 2 refused token 8
show < event(\"fortnight\") -> 2 refused unbuilt
show < daily(hours=24) | -> 2 refused syntax
show < {2023-02-29T00:00:00} -> 2 refused moment 1
show < monthly(days=32 week_start=8) -> 2 refused rule mix monthly week_start
show < minutely(seconds=1,9999999999999) -> 2 refused rule value seconds
show < daily(interval=0) -> 2 refused rule interval
show < rrule(\"FREQ=DAILY;;\", 2024-01-01T00:00:00) -> 2 refused rrule syntax
show < rrule(\"FREQ=DAILY;COUNT=1;COUNT=2\", 2024-01-01T00:00:00) -> 2 refused rrule repeated COUNT
show < rrule(\"FREQ=DAILY;UNTIL=20240101;COUNT=3\", 2024-01-01T00:00:00) -> \
    2 refused rrule mix UNTIL COUNT
show < rrule(\"FREQ=DAILY;BYHOUR=24\", 2024-01-01T00:00:00) -> 2 refused rrule value BYHOUR
show < rrule(\"FREQ=DAILY;INTERVAL=0\", 2024-01-01T00:00:00) -> 2 refused rrule interval
show < {2024-01-01T00:00:00} | {2024-01-01T00:00:00Z} -> 2 refused sort clock
show < during(span(), 60) -> 2 refused sort kind
show < during(daily(), 0) -> 2 refused sort reach
walk < daily() ; daily() -> 2 refused two
previous at=2024-01-01T00:00:00Z < {2024-01-01T00:00:00} -> 2 refused clock
";
    are_answered(&rt, rt.alloc(), ROWS)?;
    Ok(())
}

#[test]
fn a_failed_read_is_status_4_and_a_failed_write_status_5(rt: HostRuntime) -> Result<(), Fail> {
    const ROWS: &str = "\
read 0: next at=2024-02-10T00:00:00 < monthly(days=29) -> 4
read 0: next at=2024-02-10T00:00:00 < empty() -> 4
read 0: show < empty() -> 4
write 0: next at=2024-02-10T00:00:00 < monthly(days=29) -> 5
write 0: next at=2024-02-10T00:00:00 < empty() -> 5
write 0: show < empty() -> 5
write 0: show < ( -> 5
";
    are_answered_with_faults(&rt, rt.alloc(), ROWS)?;
    Ok(())
}

// A second write would fail.
#[test]
fn each_line_goes_out_by_one_write(rt: HostRuntime) -> Result<(), Fail> {
    const ROWS: &str = "\
write 1: next at=2024-02-10T00:00:00 < !{2024-02-20T00:00:00} -> (2024-02-20T00:00:00 .. inf)
write 1: show < empty()|span() -> empty() | span()
write 1: show < empty() @ -> 2 refused token 8
write 1: show x <  -> 2 refused words 1
";
    are_answered_with_faults(&rt, rt.alloc(), ROWS)?;
    Ok(())
}

// The text is read by two reads, and each line goes out by one write.
#[test]
fn a_walk_breaks_off_at_any_failed_read_or_write(rt: HostRuntime) -> Result<(), Fail> {
    const ROWS: &str = "\
read 0: walk from=2024-01-01T00:00:00 to=2024-01-03T00:00:00 < daily(hours=9) -> 4
read 1: walk from=2024-01-01T00:00:00 to=2024-01-03T00:00:00 < daily(hours=9) -> 4
read 2: walk from=2024-01-01T00:00:00 to=2024-01-03T00:00:00 < daily(hours=9) -> \
    2024-01-01T09:00:00 / 2024-01-02T09:00:00 / end
write 0: walk from=2024-01-01T00:00:00 to=2024-01-03T00:00:00 < daily(hours=9) -> 5
write 1: walk from=2024-01-01T00:00:00 to=2024-01-03T00:00:00 < daily(hours=9) -> \
    5 2024-01-01T09:00:00
write 2: walk from=2024-01-01T00:00:00 to=2024-01-03T00:00:00 < daily(hours=9) -> \
    5 2024-01-01T09:00:00 / 2024-01-02T09:00:00
write 3: walk from=2024-01-01T00:00:00 to=2024-01-03T00:00:00 < daily(hours=9) -> \
    2024-01-01T09:00:00 / 2024-01-02T09:00:00 / end
";
    are_answered_with_faults(&rt, rt.alloc(), ROWS)?;
    Ok(())
}

/// `show` over so many spaces and a set, with this read failed: its status, and what one read more
/// gives.
fn one_read_more(alloc: Global, spaces: usize, failed_read: u64) -> Result<(u8, Got), AllocError> {
    let mut text = vec![in alloc; b' '; spaces]?;
    text.extend_from_slice(b"empty()")?;
    let mut source = MemSource::new(text, places(alloc, Some(failed_read))?);
    let mut sink = MemSink::new(alloc, 64, Vec::new(alloc))?;
    let status = status_of(alloc, "show", &mut source, &mut sink)?;
    let mut buf = [0u8; 1024];
    Ok((status, source.read(&mut buf)))
}

// A read takes 4,096 bytes at most. Where all is read, one read more is the one that fails.
#[test]
fn nothing_is_read_after_the_end_or_a_failed_read(rt: HostRuntime) -> Result<(), Fail> {
    const ROWS: &[(usize, u64, u8, Got)] = &[
        (0, 2, 0, Got::Failed),
        (8_185, 3, 0, Got::Failed),
        (65_531, 99, 2, Got::Bytes(1)),
        (0, 0, 4, Got::Bytes(7)),
        (0, 1, 4, Got::End),
        (4_993, 1, 4, Got::Bytes(904)),
    ];
    let alloc = rt.alloc();
    for (spaces, failed_read, status, got) in ROWS {
        let (answered, more) = one_read_more(alloc, *spaces, *failed_read)?;
        assert_eq!(rt; answered, *status, "after {spaces} spaces");
        assert_eq!(rt; more, *got, "after {spaces} spaces");
    }
    Ok(())
}
