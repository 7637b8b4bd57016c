//! The reply to a query over a text.

ghost use Rattle.std.specs.Prelude.{◌⊎◌, ◌≤◌};
ghost use Rattle.stored_pair.specs.Names.{entries_of};
ghost use Rattle.query_reply.specs.Effects.{IsReported, RanOut};
ghost use Rattle.query_reply.specs.Report.{IsInRange, IsReply};

use crate::preparing::{Unready, prepare};
use crate::refusals::refuse;
use crate::reporting::write_report;
use moment_core::Steps;
use outside_core::Sink;
use query_words::Query;
use std::alloc::Global;
use std::sync::ledger::Ledger;
use stored_pair::Book;

/// Answers the query over the text; the status is 6, and nothing is written, where no memory is
/// left.
pub fn reply<K: Sink, L: Ledger>(
    alloc: Global,
    query: Query,
    text: &[u8],
    book: &Book,
    sink: &mut K,
    steps: &mut Steps<L>,
) -> u8
    requires { IsInRange query }
    ensures outcome { IsReported K.Sink sink.old sink.new
        (IsReply (entries_of book.now) query text.now) result
        ⊎ RanOut sink.old sink.new result }
    ensures steps { steps.old ≤ steps.new }
{
    match prepare(alloc, query, text, book) {
        Ok(mut report) => write_report(&mut report, sink, steps),
        Err(Unready::Refused(refusal)) => refuse(refusal, sink),
        Err(Unready::Memory) => 6,
    }
}
