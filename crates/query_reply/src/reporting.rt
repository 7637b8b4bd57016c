//! Writing a report.

ghost use Rattle.std.specs.Prelude.{◌≡◌, ◌<◌, ◌≤◌};
ghost use Rattle.query_reply.specs.Effects.{IsReported, IsWritten};
ghost use Rattle.span_core.specs.Answers.{IsCalendarNear};
ghost use Rattle.query_reply.specs.Preparing.{Finds, Reports, Walks};
ghost use Rattle.query_reply.specs.Report.{status_of, status_of_test, told};

use crate::preparing::Report;
use crate::searching::Search;
use crate::walking::Walking;
use crate::writing::put;
use expr_tree::Kind;
use moment_core::{Clock, Steps};
use outside_core::Sink;
use query_words::Neighbour;
use report_text::{line_near, line_test};
use span_core::{Near, Test};
use std::sync::ledger::Ledger;
use walk_core::Walk;
use walk_report::write_walk;

fn status_of(near: Near) -> u8
    ensures value { result ≡ status_of near }
    ensures small { result < 5 }
{
    match near {
        Near::Budget(_) => 3,
        Near::Found(_) | Near::None(_) | Near::Edge => 0,
    }
}

fn status_of_test(test: Test) -> u8
    ensures value { result ≡ status_of_test test }
    ensures small { result < 5 }
{
    match test {
        Test::Budget(_) => 3,
        Test::In | Test::Out => 0,
    }
}

/// Writes the line of a neighbour.
fn write_near<K: Sink>(near: Near, kind: Kind, clock: Clock, sink: &mut K) -> u8
    requires { IsCalendarNear near }
    ensures { IsWritten K.Sink sink.old sink.new (told kind clock near) result }
{
    let line = line_near(near, kind, clock);
    put(sink, line.bytes(), status_of(near))
}

/// Asks the set what the command asks, and writes its line.
fn write_asked<K: Sink, L: Ledger>(
    search: &mut Search<'_>,
    sink: &mut K,
    steps: &mut Steps<L>,
) -> u8
    ensures outcome { IsReported K.Sink sink.old sink.new (Finds search.old) result }
    ensures steps { steps.old ≤ steps.new }
{
    let (at, budget, kind, clock) = (search.at, search.budget, search.kind, search.clock);
    let plan = &mut search.plan;
    match search.side {
        Neighbour::Next => {
            let near = query_core::next(plan, at, budget, steps);
            write_near(near, kind, clock, sink)
        }
        Neighbour::Previous => {
            let near = query_core::previous(plan, at, budget, steps);
            write_near(near, kind, clock, sink)
        }
        Neighbour::Current => {
            let near = query_core::current(plan, at, budget, steps);
            write_near(near, kind, clock, sink)
        }
        Neighbour::Closest => {
            let near = query_core::closest(plan, at, budget, steps);
            write_near(near, kind, clock, sink)
        }
        Neighbour::Contains => {
            let test = query_core::contains(plan, at, budget, steps);
            let line = line_test(test);
            put(sink, line.bytes(), status_of_test(test))
        }
    }
}

/// Writes the lines of a walk, each by one write.
fn write_items<K: Sink, L: Ledger>(
    walking: &mut Walking<'_>,
    sink: &mut K,
    steps: &mut Steps<L>,
) -> u8
    ensures outcome { IsReported K.Sink sink.old sink.new (Walks walking.old) result }
    ensures steps { steps.old ≤ steps.new }
{
    let (kind, clock, limit, budget) = (walking.kind, walking.clock, walking.limit, walking.budget);
    let mut walk = Walk::resume(&mut walking.plan, walking.from);
    write_walk(&mut walk, kind, clock, limit, budget, sink, steps)
}

/// Writes the report. It takes no memory.
pub(crate) fn write_report<K: Sink, L: Ledger>(
    report: &mut Report<'_>,
    sink: &mut K,
    steps: &mut Steps<L>,
) -> u8
    ensures outcome { IsReported K.Sink sink.old sink.new (Reports report.old) result }
    ensures steps { steps.old ≤ steps.new }
{
    match report {
        Report::Printed(text) => put(sink, text, 0),
        Report::Near(search) => write_asked(search, sink, steps),
        Report::Walk(walking) => write_items(walking, sink, steps),
    }
}
