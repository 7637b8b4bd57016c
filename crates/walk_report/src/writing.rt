ghost use Rattle.std.specs.Prelude.{◌≡◌, ◌≤◌, if◌then◌else◌};
ghost use Rattle.walk_core.specs.Walks.{meant_of_walk, token_of_walk};
ghost use Rattle.walk_report.specs.Report.{IsWalked};
ghost use Rattle.walk_report.specs.Turns.{PutsOrBreaks, TurnsTo, telling_of, turn_of};

use crate::laws::report_laws;
use expr_tree::Kind;
use moment_core::{Clock, Steps};
use outside_core::{Put, Sink};
use report_text::{line_item, line_more};
use span_core::Item;
use std::sync::ledger::Ledger;
use walk_core::{Walk, walk_laws};

/// What one turn did: it wrote an item's line, or a last line with this status, or the write
/// failed.
pub(crate) enum Turn {
    Wrote,
    Last(u8),
    Broke,
}

/// Writes the lines of a walk's items, at most so many, and a last line, each by one write. It
/// takes no memory.
///
/// The status is 0 where the walk was told whole: the last line is `more` where as many items were
/// written as the limit says, and else why no item is left. It is 3 where a search stopped, and 5
/// where a write failed.
pub fn write_walk<K: Sink, L: Ledger>(
    walk: &mut Walk<'_, '_>,
    kind: Kind,
    clock: Clock,
    limit: u64,
    budget: u64,
    sink: &mut K,
    steps: &mut Steps<L>,
) -> u8
    requires budget { 1 ≤ budget }
    ensures walked { IsWalked K.Sink sink.old sink.new (telling_of walk.old kind clock budget) limit
        (token_of_walk walk.old) result }
    ensures steps { steps.old ≤ steps.new }
{
    let mut left = limit;
    while 0 < left {
        match write_next(walk, kind, clock, budget, sink, steps) {
            Turn::Wrote => left -= 1,
            Turn::Last(status) => return status,
            Turn::Broke => return 5,
        }
    }
    let line = line_more(walk.token());
    let whole = put(sink, line.bytes());
    last_status(whole)
}

/// The status after a last line that was taken whole, or not.
fn last_status(whole: bool) -> u8
    ensures { result ≡ (if whole then 0 else 5) }
{
    if whole { 0 } else { 5 }
}

/// Writes the line by one call: whether it was taken whole.
fn put<K: Sink>(sink: &mut K, line: &[u8]) -> bool
    ensures puts { PutsOrBreaks K.Sink line.now sink.old sink.new result }
    ensures counted { K.faults sink.old ≤ K.faults sink.new }
{
    match sink.write(line) {
        Put::All => true,
        Put::Failed(_) => false,
    }
}

/// Writes the next line of a walk.
fn write_next<K: Sink, L: Ledger>(
    walk: &mut Walk<'_, '_>,
    kind: Kind,
    clock: Clock,
    budget: u64,
    sink: &mut K,
    steps: &mut Steps<L>,
) -> Turn
    requires budget { 1 ≤ budget }
    ensures turn { TurnsTo K.Sink sink.old sink.new (telling_of walk.old kind clock budget)
        (token_of_walk walk.old) (token_of_walk walk.new) result }
    ensures counted { K.faults sink.old ≤ K.faults sink.new }
    ensures same { meant_of_walk walk.new ≡ meant_of_walk walk.old }
    ensures steps { steps.old ≤ steps.new }
{
    report_laws();
    walk_laws(walk);
    let item = walk.step(budget, steps);
    let _next = walk.token();
    let line = line_item(item, kind, clock);
    let whole = put(sink, line.bytes());
    turn_of(item, whole)
}

/// What a turn did by its item, where its line was taken whole or not.
fn turn_of(item: Item, whole: bool) -> Turn
    ensures { result ≡ turn_of item whole }
{
    match (item, whole) {
        (_, false) => Turn::Broke,
        (Item::Run(_), true) => Turn::Wrote,
        (Item::Done(_), true) => Turn::Last(0),
        (Item::Budget(_), true) => Turn::Last(3),
    }
}
