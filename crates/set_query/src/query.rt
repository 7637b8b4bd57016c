//! The top call: words and a text in, lines and a status out.

ghost use Rattle.std.specs.Prelude.{◌≡◌, ◌≢◌, ◌⊎◌, ◌≤◌, map, IfSome};
ghost use Rattle.std.specs.String.{string_bytes};
ghost use Rattle.stored_pair.specs.Names.{entries_of};
ghost use Rattle.query_words.specs.Words.{Asks, IsRefused};
ghost use Rattle.query_words.specs.declared.queries.Query.{Query};
ghost use Rattle.query_words.specs.declared.queries.WordsFault.{WordsFault};
ghost use Rattle.report_text.specs.Refusals.{IsPrintable};
ghost use Rattle.query_reply.specs.Effects.{IsDone, WriteFailed};
ghost use Rattle.query_reply.specs.Report.{HasAmpleBudget};
ghost use Rattle.set_query.specs.Effects.{Answers, BreaksOff, IsReadOut, ReadFailed, ReadsUpTo};
ghost use Rattle.set_query.specs.Outcomes.{words_refusal};
ghost use Rattle.set_query.specs.declared.reading.TheConstants.{ROOM};

use crate::reading::{ReadFault, read_text};
use moment_core::Steps;
use outside_core::{Sink, Source};
use query_reply::{refuse, reply, reply_laws};
use query_words::{WordsFault, read_words, words_laws};
use report_text::Refusal;
use std::alloc::Global;
use std::sync::ledger::Ledger;
use stored_pair::Book;

/// The refusal of words with this fault.
fn words_refusal(fault: WordsFault) -> Refusal
    ensures value { result ≡ words_refusal fault }
    ensures printable { IsPrintable result }
{
    match fault {
        WordsFault::Unbuilt => Refusal::Unbuilt,
        WordsFault::Bad(n) => Refusal::Words(n),
    }
}

/// Answers a query: reads the words, then the source, and writes each line by one call.
///
/// The words are `show`; or `next`, `previous`, `current`, `closest` or `contains` with `at=M`; or
/// `walk`, perhaps with `from=M`, `to=M`, `dir=fore` or `dir=back`; or `resume` with `token=T`. All
/// but `show` may have `budget=N`, and the last two `limit=L`. Other words are refused with status
/// 2, and nothing is read: by `refused words` and the number of the first bad word, or by `refused
/// unbuilt` where the first word is a command that isn't answered yet. Otherwise the source is read
/// to its end, or 65,537 bytes.
///
/// A text of the expression language is refused by the line of its first fault, with status 2. In
/// the order in which they are looked for:
///
/// - `refused long` for more than 65,536 bytes;
/// - `refused token` and the byte at which no token begins;
/// - `refused unbuilt` for a call that isn't answered yet;
/// - `refused syntax`;
/// - `refused moment` and the byte of a literal that names no moment, or of a span without a
///   position;
/// - `refused rule mix` and the frequency and a key that it may not give, or `months weeks` where
///   both are given, `refused rule value` and the key of a value out of its range, or `refused rule
///   interval`, for the first rule by fields with a fault;
/// - `refused rrule` with `syntax`, with `repeated` and the part, or with `mix`, `value` or
///   `interval` and the parts as above, for the first rule of RFC 5545 with a fault;
/// - `refused sort` and what the sort lacks.
///
/// Under `show` another text is answered by its printed form, with status 0.
///
/// Under the other commands two expressions are refused by `refused two`, an expression on another
/// clock than M's by `refused clock`, and one with a rule whose COUNT isn't settled by `refused
/// settle`, with status 2: its last member isn't among the first 20,000,000 candidates, whose
/// number and last place follow.
///
/// Otherwise the line tells, with status 0, the first run that begins after M (`next`), the last
/// run that ends before it (`previous`), the run that holds M or else the previous one (`current`),
/// or the run that holds M or else the nearer neighbour (`closest`): its moment or its bounds,
/// `none` and the window after which the set repeats without one, or `edge` where there is none in
/// the calendar range and nothing is said past it. Under `contains` it is `yes` or `no`. It is
/// `budget`, a position and a number, with status 3, where a search stops: the search itself, by 0,
/// because it passed N candidates or more; or durations or pairs, by their number from 1 at the
/// root, because they passed as many without a member while they looked back.
///
/// Under `walk` and `resume` the lines tell the runs in the window from M to M, cut at its ends, in
/// the direction, or those that are left from the token, each as it is found. The last line is
/// `more` and a token where L runs were written; else `none` and a window, `edge`, or `end` where
/// the window's end was reached; or, with status 3, `budget` and a token where a search stops. From
/// the token `resume` goes on.
///
/// The status is 4 where a read failed, 5 where a write failed, and 6 where no memory was left
/// before the first write.
pub fn run<S: Source, K: Sink, L: Ledger>(
    alloc: Global,
    words: &[String],
    book: &Book,
    source: &mut S,
    sink: &mut K,
    steps: &mut Steps<L>,
) -> u8
    ensures statuses { IsDone result ⊎ (result ≡ 4) ⊎ (result ≡ 5) ⊎ (result ≡ 6) }

    // Without a fault it comes to its end, unless memory runs out.
    ensures complete { ¬ (ReadFailed S.Source source.old source.new)
        → ¬ (WriteFailed K.Sink sink.old sink.new) → IsDone result ⊎ (result ≡ 6) }

    // Then the status and the lines are those of the words and the text.
    ensures done { IsDone result
        → Answers K.Sink sink.old sink.new (entries_of book.now)
        (map string_bytes words.now) (S.left source.old) result }

    // With an ample budget no search stops.
    ensures ample { (query : Query) → Asks (map string_bytes words.now) query
        → IfSome (S.left source.old)
        (λ text. HasAmpleBudget (entries_of book.now) text query → result ≢ 3) }

    // Where the words are refused nothing is read. Otherwise the first bytes are read, which are
    // all where the text is answered.
    ensures unread { (fault : WordsFault) → IsRefused (map string_bytes words.now) fault
        → source.new ≡ source.old }
    ensures read { (query : Query) → Asks (map string_bytes words.now) query
        → IsDone result ⊎ (result ≡ 5) → ReadsUpTo ROOM S.Source source.old source.new }
    ensures ended { (result ≡ 0) ⊎ (result ≡ 3) → IsReadOut S.Source source.old source.new }

    // After a fault of the source nothing was written.
    ensures source_fault { result ≡ 4
        → ReadFailed S.Source source.old source.new × (sink.new ≡ sink.old) }

    // After a fault of the sink it took the first bytes of the lines.
    ensures sink_fault { result ≡ 5 → WriteFailed K.Sink sink.old sink.new
        × BreaksOff K.Sink sink.old sink.new (entries_of book.now)
        (map string_bytes words.now) (S.left source.old) }

    // Words that are refused take no memory, and where it runs out nothing was written.
    ensures memory { result ≡ 6 → ((query : Query) × Asks (map string_bytes words.now) query)
        × (sink.new ≡ sink.old) }

    ensures counted { (S.faults source.old ≤ S.faults source.new)
        × (K.faults sink.old ≤ K.faults sink.new) }
    ensures steps { steps.old ≤ steps.new }
{
    words_laws();
    reply_laws();
    match read_words(words) {
        Ok(query) => match read_text(alloc, source) {
            Ok(text) => reply(alloc, query, &text, book, sink, steps),
            Err(ReadFault::Failed) => 4,
            Err(ReadFault::Memory) => 6,
        },
        Err(fault) => refuse(words_refusal(fault), sink),
    }
}
