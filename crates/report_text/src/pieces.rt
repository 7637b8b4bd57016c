//! What several lines have in common: moments, runs, windows and stops.

ghost use Rattle.std.specs.Prelude.{◌≡◌, ◌+◌, ◌≤◌, ◌++◌, decimal, length};
ghost use Rattle.moment_core.specs.Line.{IsWorkingMoment};
ghost use Rattle.span_core.specs.Answers.{IsCalendarWindow};
ghost use Rattle.span_core.specs.Bounds.{IsCalendarBound, IsCalendarRun};
ghost use Rattle.report_text.specs.Lines.{first_moment, high_text, last_moment, low_text, moment_text, only_moment, run_text, span_text, stop_text, window_text};

use crate::lines::Line;
use expr_tree::Kind;
use itoa::Buffer;
use moment_core::{Clock, HIGH, LOW, Moment, Stamp, Window, floor};
use moment_text::write_literal;
use span_core::{Bound, Run, Stop};

pub fn put_moment(line: &mut Line, moment: Moment, clock: Clock)
    requires room { length line.old + 21 ≤ 128 }
    requires in_range { IsWorkingMoment moment.0 }
    ensures bytes { line.new ≡ line.old ++ moment_text clock moment.0 }
    ensures len { length line.new ≤ length line.old + 21 }
{
    let absolute = clock.is_absolute();
    let literal = write_literal(Stamp { moment, absolute });
    line.put(literal.as_slice());
}

fn put_low(line: &mut Line, bound: Bound, clock: Clock)
    requires room { length line.old + 22 ≤ 128 }
    requires in_range { IsCalendarBound bound }
    ensures bytes { line.new ≡ line.old ++ low_text clock bound }
    ensures len { length line.new ≤ length line.old + 22 }
{
    match bound {
        Bound::Closed(moment) => {
            line.put(b"[");
            put_moment(line, moment, clock);
        }
        Bound::Open(moment) => {
            line.put(b"(");
            put_moment(line, moment, clock);
        }
        Bound::Inf => line.put(b"(-inf"),
        Bound::Edge => line.put(b"(-edge"),
    }
}

fn put_high(line: &mut Line, bound: Bound, clock: Clock)
    requires room { length line.old + 22 ≤ 128 }
    requires in_range { IsCalendarBound bound }
    ensures bytes { line.new ≡ line.old ++ high_text clock bound }
    ensures len { length line.new ≤ length line.old + 22 }
{
    match bound {
        Bound::Closed(moment) => {
            put_moment(line, moment, clock);
            line.put(b"]");
        }
        Bound::Open(moment) => {
            put_moment(line, moment, clock);
            line.put(b")");
        }
        Bound::Inf => line.put(b"inf)"),
        Bound::Edge => line.put(b"edge)"),
    }
}

fn put_span(line: &mut Line, run: Run, clock: Clock)
    requires room { length line.old + 48 ≤ 128 }
    requires in_range { IsCalendarRun run }
    ensures bytes { line.new ≡ line.old ++ span_text clock run }
    ensures len { length line.new ≤ length line.old + 48 }
{
    put_low(line, run.first, clock);
    line.put(b" .. ");
    put_high(line, run.last, clock);
}

/// The moment at which a run begins, if it begins with one.
fn first_moment(bound: Bound) -> Option<Moment>
    ensures { result ≡ first_moment bound }
{
    match bound {
        Bound::Closed(moment) => Some(moment),
        Bound::Open(_) => None,
        Bound::Inf | Bound::Edge => Some(Moment(LOW)),
    }
}

/// The moment at which a run ends, if it ends with one.
fn last_moment(bound: Bound) -> Option<Moment>
    ensures { result ≡ last_moment bound }
{
    match bound {
        Bound::Closed(moment) => Some(moment),
        Bound::Open(_) => None,
        Bound::Inf | Bound::Edge => Some(Moment(HIGH)),
    }
}

/// The moment that a run is, if it is just one.
fn only_moment(run: Run) -> Option<Moment>
    ensures { result ≡ only_moment run }
{
    match (first_moment(run.first), last_moment(run.last)) {
        (Some(first), Some(last)) if first == last => Some(first),
        _ => None,
    }
}

/// Writes a run, one of a set of moments as its moment.
pub fn put_run(line: &mut Line, run: Run, kind: Kind, clock: Clock)
    requires room { length line.old + 48 ≤ 128 }
    requires in_range { IsCalendarRun run }
    ensures bytes { line.new ≡ line.old ++ run_text kind clock run }
    ensures len { length line.new ≤ length line.old + 48 }
{
    match (kind, only_moment(run)) {
        (Kind::Moments, Some(moment)) => put_moment(line, moment, clock),
        _ => put_span(line, run, clock),
    }
}

/// Writes the moments at or before the ends of a window.
pub fn put_window(line: &mut Line, window: Window, clock: Clock)
    requires room { length line.old + 46 ≤ 128 }
    requires in_range { IsCalendarWindow window }
    ensures bytes { line.new ≡ line.old ++ window_text clock window }
    ensures len { length line.new ≤ length line.old + 46 }
{
    put_moment(line, floor(window.lo), clock);
    line.put(b" .. ");
    put_moment(line, floor(window.hi), clock);
}

/// Writes a number in decimal.
pub fn put_number(line: &mut Line, number: u64)
    requires { length line.old + 20 ≤ 128 }
    ensures bytes { line.new ≡ line.old ++ decimal number }
    ensures len { length line.new ≤ length line.old + 20 }
{
    let mut buffer = Buffer::new();
    line.put(buffer.format(number).as_bytes());
}

/// Writes the position and the node of a stop.
pub fn put_stop(line: &mut Line, stop: Stop)
    requires { length line.old + 41 ≤ 128 }
    ensures bytes { line.new ≡ line.old ++ stop_text stop }
    ensures len { length line.new ≤ length line.old + 41 }
{
    let mut buffer = Buffer::new();
    line.put(buffer.format(stop.at.0).as_bytes());
    line.put(b" ");
    put_number(line, stop.node as u64);
}
