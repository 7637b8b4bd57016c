//! Tests of report_text.

ghost use Rattle.std.specs.Prelude.{◌≡◌, true};
ghost use Rattle.span_core.specs.Answers.{IsCalendarItem, IsCalendarNear, IsCalendarWindow};
ghost use Rattle.span_core.specs.Bounds.{IsCalendarBound, IsCalendarRun};
ghost use Rattle.report_text.specs.Refusals.{IsPrintable};

use expr_tree::{Kind, SortFault};
use moment_core::{Clock, Dir, HIGH, LOW, Moment, Pos, Window, floor, in_range, in_work};
use report_text::{Refusal, line_item, line_more, line_near, line_refusal};
use rule_core::{Part, RuleFault};
use span_core::{Bound, Item, Near, Run, Stop, Token, Why};
use std::alloc::AllocError;
use std::process::Abort;
use std::test::Fail;

fn is_calendar_bound(bound: Bound) -> bool
    ensures { result ≡ true → IsCalendarBound bound }
{
    match bound {
        Bound::Closed(moment) | Bound::Open(moment) => in_range(moment),
        Bound::Inf | Bound::Edge => true,
    }
}

fn is_calendar_run(run: Run) -> bool
    ensures { result ≡ true → IsCalendarRun run }
{
    is_calendar_bound(run.first) && is_calendar_bound(run.last)
}

fn is_calendar_window(window: Window) -> bool
    ensures { result ≡ true → IsCalendarWindow window }
{
    in_range(floor(window.lo)) && in_range(floor(window.hi))
}

fn is_calendar_near(near: Near) -> bool
    ensures { result ≡ true → IsCalendarNear near }
{
    match near {
        Near::Found(run) => is_calendar_run(run),
        Near::None(window) => is_calendar_window(window),
        Near::Edge | Near::Budget(_) => true,
    }
}

fn is_calendar_item(item: Item) -> bool
    ensures { result ≡ true → IsCalendarItem item }
{
    match item {
        Item::Run(run) => is_calendar_run(run),
        Item::Done(Why::None(window)) => is_calendar_window(window),
        Item::Done(Why::To) | Item::Done(Why::Edge) | Item::Budget(_) => true,
    }
}

/// Appends the line of the answer.
fn write_near(
    rt: &impl Abort,
    lines: &mut Vec<u8>,
    near: Near,
    kind: Kind,
    clock: Clock,
) -> Result<(), AllocError> {
    assert!(rt; is_calendar_near(near), "{near:?}");
    lines.extend_from_slice(line_near(near, kind, clock).bytes())
}

/// The lines are those of the text.
fn are_written(rt: &impl Abort, lines: Vec<u8>, text: &str) -> Result<(), Fail> {
    let lines = String::from_utf8(lines)?;
    assert_eq!(rt; lines.as_str(), text);
    Ok(())
}

// The seconds here and below are those of `date -u`.
const BEGIN: Moment = Moment(1_704_067_200);

const END: Moment = Moment(1_709_296_200);

#[test]
fn a_moment_of_a_set_of_moments_stands_alone_on_its_line(rt: HostRuntime) -> Result<(), Fail> {
    const ONE: Bound = Bound::Closed(BEGIN);
    const FIRST: Bound = Bound::Closed(Moment(LOW));
    const LAST: Bound = Bound::Closed(Moment(HIGH));
    const RUNS: &[(Bound, Bound, Clock)] = &[
        (ONE, ONE, Clock::Floating),
        (ONE, ONE, Clock::Any),
        (ONE, ONE, Clock::Absolute),
        (FIRST, FIRST, Clock::Any),
        (Bound::Inf, FIRST, Clock::Any),
        (Bound::Edge, FIRST, Clock::Any),
        (LAST, LAST, Clock::Any),
        (LAST, Bound::Inf, Clock::Any),
        (LAST, Bound::Edge, Clock::Any),
    ];
    const LINES: &str = "\
2024-01-01T00:00:00
2024-01-01T00:00:00
2024-01-01T00:00:00Z
-9900-01-01T00:00:00
-9900-01-01T00:00:00
-9900-01-01T00:00:00
9900-12-31T23:59:59
9900-12-31T23:59:59
9900-12-31T23:59:59
";
    let mut lines = Vec::new(rt.alloc());
    for (first, last, clock) in RUNS {
        let near = Near::Found(Run {
            first: *first,
            last: *last,
        });
        write_near(&rt, &mut lines, near, Kind::Moments, *clock)?;
    }
    are_written(&rt, lines, LINES)
}

#[test]
fn a_span_is_written_with_its_two_bounds(rt: HostRuntime) -> Result<(), Fail> {
    const CLOSED: Bound = Bound::Closed(BEGIN);
    const OPEN: Bound = Bound::Open(BEGIN);
    const AT_END: Bound = Bound::Closed(END);
    const BEFORE_END: Bound = Bound::Open(END);
    const RUNS: &[(Bound, Bound)] = &[
        (CLOSED, AT_END),
        (CLOSED, BEFORE_END),
        (OPEN, AT_END),
        (OPEN, BEFORE_END),
        (CLOSED, CLOSED),
        (Bound::Inf, BEFORE_END),
        (Bound::Edge, AT_END),
        (CLOSED, Bound::Inf),
        (OPEN, Bound::Edge),
        (Bound::Inf, Bound::Edge),
        (Bound::Edge, Bound::Inf),
    ];
    const LINES: &str = "\
[2024-01-01T00:00:00Z .. 2024-03-01T12:30:00Z]
[2024-01-01T00:00:00Z .. 2024-03-01T12:30:00Z)
(2024-01-01T00:00:00Z .. 2024-03-01T12:30:00Z]
(2024-01-01T00:00:00Z .. 2024-03-01T12:30:00Z)
[2024-01-01T00:00:00Z .. 2024-01-01T00:00:00Z]
(-inf .. 2024-03-01T12:30:00Z)
(-edge .. 2024-03-01T12:30:00Z]
[2024-01-01T00:00:00Z .. inf)
(2024-01-01T00:00:00Z .. edge)
(-inf .. edge)
(-edge .. inf)
";
    let mut lines = Vec::new(rt.alloc());
    for (first, last) in RUNS {
        let near = Near::Found(Run {
            first: *first,
            last: *last,
        });
        write_near(&rt, &mut lines, near, Kind::Spans, Clock::Absolute)?;
    }
    are_written(&rt, lines, LINES)
}

fn never(lo: i64, hi: i64) -> Near {
    Near::None(Window {
        lo: Pos(lo),
        hi: Pos(hi),
    })
}

fn stop(at: i64, node: u32) -> Near {
    Near::Budget(Stop { at: Pos(at), node })
}

#[test]
fn windows_without_a_run_the_edge_and_stops_have_these_lines(rt: HostRuntime) -> Result<(), Fail> {
    let answers = [
        never(2_082_758_400, 27_328_320_000),
        never(1_746_036_000, 1_746_036_002),
        never(-1, 1),
        Near::Edge,
        stop(0, 0),
        stop(-1, 2),
        stop(-749_161_958_400, 1_024),
        stop(i64::MIN, u32::MAX),
    ];
    const LINES: &str = "\
none 2003-01-01T00:00:00 .. 2403-01-01T00:00:00
none 1997-08-31T09:00:00 .. 1997-08-31T09:00:01
none 1969-12-31T23:59:59 .. 1970-01-01T00:00:00
edge
budget 0 0
budget -1 2
budget -749161958400 1024
budget -9223372036854775808 4294967295
";
    let mut lines = Vec::new(rt.alloc());
    for near in answers {
        write_near(&rt, &mut lines, near, Kind::Moments, Clock::Floating)?;
    }
    are_written(&rt, lines, LINES)
}

const WALK: Token = Token {
    dir: Dir::Fore,
    place: Pos(1_942_855_201),
    begun: None,
    end: Pos(500_556_326_398),
};

const LONGEST: Token = Token {
    dir: Dir::Back,
    place: Pos(i64::MIN),
    begun: Some(Pos(i64::MIN)),
    end: Pos(i64::MIN),
};

#[test]
fn items_of_a_walk_have_these_lines(rt: HostRuntime) -> Result<(), Fail> {
    const RUN: Run = Run {
        first: Bound::Closed(BEGIN),
        last: Bound::Closed(BEGIN),
    };
    const WINDOW: Window = Window {
        lo: Pos(-1),
        hi: Pos(1),
    };
    const ITEMS: &[Item] = &[
        Item::Run(RUN),
        Item::Done(Why::To),
        Item::Done(Why::None(WINDOW)),
        Item::Done(Why::Edge),
        Item::Budget(WALK),
        Item::Budget(LONGEST),
    ];
    const LINES: &str = "\
2024-01-01T00:00:00Z
end
none 1969-12-31T23:59:59Z .. 1970-01-01T00:00:00Z
edge
budget fore:1942855201:-:500556326398
budget back:-9223372036854775808:-9223372036854775808:-9223372036854775808
more fore:1942855201:-:500556326398
";
    let mut lines = Vec::new(rt.alloc());
    for item in ITEMS {
        assert!(rt; is_calendar_item(*item), "{item:?}");
        lines.extend_from_slice(line_item(*item, Kind::Moments, Clock::Absolute).bytes())?;
    }
    lines.extend_from_slice(line_more(WALK).bytes())?;
    are_written(&rt, lines, LINES)
}

fn is_printable(refusal: Refusal) -> bool
    ensures { result ≡ true → IsPrintable refusal }
{
    match refusal {
        Refusal::Settle { at, .. } => in_work(at),
        _ => true,
    }
}

#[test]
fn a_refusal_names_its_fault(rt: HostRuntime) -> Result<(), Fail> {
    const REFUSALS: &[Refusal] = &[
        Refusal::Words(0),
        Refusal::Unbuilt,
        Refusal::Long,
        Refusal::Token(65_535),
        Refusal::Syntax,
        Refusal::Moment(17),
        Refusal::Rule(RuleFault::BadMix(Part::Yearly, Part::WeekStart)),
        Refusal::Rule(RuleFault::BadMix(Part::ByMonthDay, Part::ByMonthDay)),
        Refusal::Rule(RuleFault::BadValue(Part::Days)),
        Refusal::Rule(RuleFault::BadInterval),
        Refusal::RruleSyntax,
        Refusal::RruleRepeated(Part::ByMonthDay),
        Refusal::Rrule(RuleFault::BadMix(Part::ByMonthDay, Part::Freq)),
        Refusal::Rrule(RuleFault::BadValue(Part::Until)),
        Refusal::Rrule(RuleFault::BadInterval),
        Refusal::Sort(SortFault::Nodes),
        Refusal::Sort(SortFault::Depth),
        Refusal::Sort(SortFault::Event),
        Refusal::Sort(SortFault::Kind),
        Refusal::Sort(SortFault::Clock),
        Refusal::Sort(SortFault::Reach),
        Refusal::Two,
        Refusal::Clock,
        Refusal::Settle {
            passed: 20_000_000,
            at: Moment(1_709_164_800),
        },
    ];
    const LINES: &str = "\
refused words 0
refused unbuilt
refused long
refused token 65535
refused syntax
refused moment 17
refused rule mix yearly week_start
refused rule mix BYMONTHDAY BYMONTHDAY
refused rule value days
refused rule interval
refused rrule syntax
refused rrule repeated BYMONTHDAY
refused rrule mix BYMONTHDAY FREQ
refused rrule value UNTIL
refused rrule interval
refused sort nodes
refused sort depth
refused sort event
refused sort kind
refused sort clock
refused sort reach
refused two
refused clock
refused settle 20000000 2024-02-29T00:00:00
";
    let mut lines = Vec::new(rt.alloc());
    for refusal in REFUSALS {
        assert!(rt; is_printable(*refusal), "{refusal:?}");
        lines.extend_from_slice(line_refusal(*refusal).bytes())?;
    }
    are_written(&rt, lines, LINES)
}
