//! What is put together before anything is written: all that can be refused, and all that takes
//! memory.

ghost use Rattle.std.specs.Prelude.{◌≡◌, ◌≤◌, IfErr, IfOk};
ghost use Rattle.moment_core.specs.Line.{IsCalendarMoment, IsCalendarPosition};
ghost use Rattle.span_core.specs.Tokens.{IsFit};
ghost use Rattle.walk_core.specs.Tokens.{window_token};
ghost use Rattle.expr_tree.specs.WellFormed.{AreWellFormed};
ghost use Rattle.expr_print.specs.Printing.{print_program};
ghost use Rattle.expr_text.specs.Sorted.{trees_of_sorted, HaveSorts};
ghost use Rattle.stored_pair.specs.Names.{entries_of};
ghost use Rattle.report_text.specs.Lines.{with_line_feed};
ghost use Rattle.report_text.specs.Refusals.{IsPrintable};
ghost use Rattle.query_reply.specs.declared.preparing.Unready.TheVariants.{Memory};
ghost use Rattle.query_reply.specs.Reading.{either_clock, given_clock, sets_clock, takes, words_clock};
ghost use Rattle.query_reply.specs.Preparing.{reading_of, sorts_of, unready_of, GivesClock, GivesMeant, GivesReport, GivesWalk, Prepares};
ghost use Rattle.query_reply.specs.Report.{IsGivenInRange, IsInRange, end_of, window_given};

use crate::refusals::text_refusal;
use crate::searching::Search;
use crate::walking::Walking;
use cert_audit::{PlanFault, settle_laws};
use expr_print::write_program;
use expr_text::{SortedProgram, read_sorted};
use moment_core::{Clock, Dir, HIGH, LOW, Moment, Pos, Stamp, Window, of};
use plan_core::Plan;
use query_words::Query;
use report_text::{LINE_FEED, Refusal};
use span_core::Token;
use std::alloc::{AllocError, Global};
use stored_pair::Book;
use walk_core::window_token;

/// A report that only has to be written.
#[derive(Drop)]
pub(crate) enum Report<'b> {
    /// This text.
    Printed(Vec<u8>),
    /// What is asked of a set by a moment.
    Near(Search<'b>),
    /// The items of a set.
    Walk(Walking<'b>),
}

/// Why there is no report.
#[derive(Clone, Copy)]
pub(crate) enum Unready {
    Refused(Refusal),
    Memory,
}

impl From<AllocError> for Unready {
    ghost from_gives = { λ _ e. e ≡ Memory };

    fn from(_e: AllocError) -> Unready {
        Unready::Memory
    }
}

/// The program of the text, or its refusal.
fn meant(alloc: Global, text: &[u8], book: &Book) -> Result<SortedProgram, Unready>
    ensures meant { GivesMeant text.now result }
    ensures well_formed { IfOk result (λ p. AreWellFormed (trees_of_sorted p)) }
    ensures sorts { IfOk result HaveSorts }
{
    match read_sorted(alloc, text, book) {
        Ok(program) => Ok(program),
        Err(fault) => match text_refusal(fault) {
            Some(refusal) => Err(Unready::Refused(refusal)),
            None => Err(Unready::Memory),
        },
    }
}

/// Whether the command takes so many expressions.
fn takes(query: Query, program: &SortedProgram) -> bool
    ensures { result ≡ takes query (trees_of_sorted program.now).second }
{
    match query {
        Query::Near { .. } => program.second.is_none(),
        Query::Walk { .. } => program.second.is_none(),
        Query::Resume { .. } => program.second.is_none(),
        Query::Show => true,
    }
}

fn either_clock(a: Clock, b: Clock) -> Clock
    ensures { result ≡ either_clock a b }
{
    match a {
        Clock::Any => b,
        Clock::Floating | Clock::Absolute => a,
    }
}

fn given_clock(given: Option<Stamp>) -> Clock
    ensures { result ≡ given_clock given }
{
    match given {
        Some(at) => at.clock(),
        None => Clock::Any,
    }
}

/// The clock of the words' moments, any where they give none.
fn words_clock(query: Query) -> Clock
    ensures { result ≡ words_clock query }
{
    match query {
        Query::Near { at, .. } => at.clock(),
        Query::Walk { from, to, .. } => either_clock(given_clock(from), given_clock(to)),
        Query::Resume { .. } | Query::Show => Clock::Any,
    }
}

/// The one clock of the expressions, any giving way.
fn sets_clock(program: &SortedProgram) -> Clock
    ensures { result ≡ sets_clock (sorts_of program.now) }
{
    let second = match &program.second {
        Some(second) => second.sort.clock,
        None => Clock::Any,
    };
    either_clock(program.first.sort.clock, second)
}

/// The clock of the lines, where the command takes the program's expressions and the words' moments
/// may be on their clock.
fn clock_of(query: Query, program: &SortedProgram) -> Result<Clock, Refusal>
    ensures clock { GivesClock query (reading_of program.now) result }
    ensures printable { IfErr result IsPrintable }
{
    if !takes(query, program) {
        return Err(Refusal::Two);
    }
    match sets_clock(program).common(words_clock(query)) {
        Some(clock) => Ok(clock),
        None => Err(Refusal::Clock),
    }
}

/// Why there is no report where there is no plan.
fn why_unready(fault: PlanFault) -> Unready
    ensures { result ≡ unready_of fault }
{
    match fault {
        PlanFault::Settle { passed, at } => Unready::Refused(Refusal::Settle { passed, at }),
        PlanFault::Memory => Unready::Memory,
    }
}

/// The printed form of the program, and a line feed.
fn printed_line(alloc: Global, program: SortedProgram) -> Result<Vec<u8>, AllocError>
    requires { AreWellFormed (trees_of_sorted program) }
    ensures { IfOk result
        (λ line. line.items ≡ with_line_feed (print_program (trees_of_sorted program))) }
{
    let mut line = write_program(alloc, &program.program())?;
    line.push(LINE_FEED)?;
    Ok(line)
}

/// The position of the moment, or of the default where none is given.
fn end_of(default: i64, given: Option<Stamp>) -> Pos
    requires default { IsCalendarMoment default }
    requires given { IsGivenInRange given }
    ensures value { result ≡ end_of default given }
    ensures range { IsCalendarPosition result.0 }
{
    match given {
        Some(at) => of(at.moment),
        None => of(Moment(default)),
    }
}

/// The token at which a walk between the moments begins.
fn first_token(from: Option<Stamp>, to: Option<Stamp>, dir: Dir) -> Token
    requires from { IsGivenInRange from }
    requires to { IsGivenInRange to }
    ensures value { result ≡ window_token (window_given from to) dir }
    ensures fit { IsFit result }
{
    let w = Window {
        lo: end_of(LOW, from),
        hi: end_of(HIGH, to),
    };
    window_token(w, dir)
}

/// A walk over the first set of a program from a token on.
fn walk_over<'b>(
    alloc: Global,
    program: &SortedProgram,
    clock: Clock,
    from: Token,
    limit: u64,
    budget: u64,
    book: &'b Book,
) -> Result<Report<'b>, Unready>
    requires fit { IsFit from }
    requires budget { 1 ≤ budget }
    requires well_formed { AreWellFormed (trees_of_sorted program.now) }
    requires sorts { HaveSorts program.now }
    ensures { GivesWalk (entries_of book.now) (reading_of program.now) clock from limit budget
        result }
{
    settle_laws();
    match Plan::make(alloc, &program.first.set, book) {
        Ok(plan) => Ok(Report::Walk(Walking {
            plan,
            from,
            kind: program.first.sort.kind,
            clock,
            limit,
            budget,
        })),
        Err(fault) => Err(why_unready(fault)),
    }
}

/// The report of a query over a program that it takes, with all memory that it takes; or the
/// refusal of the first count in the set to be searched that isn't settled.
fn make_report<'b>(
    alloc: Global,
    query: Query,
    program: SortedProgram,
    clock: Clock,
    book: &'b Book,
) -> Result<Report<'b>, Unready>
    requires range { IsInRange query }
    requires well_formed { AreWellFormed (trees_of_sorted program) }
    requires sorts { HaveSorts program }
    ensures { GivesReport (entries_of book.now) query (reading_of program) clock result }
{
    settle_laws();
    match query {
        Query::Near { side, at, budget } => match Plan::make(alloc, &program.first.set, book) {
            Ok(plan) => Ok(Report::Near(Search {
                plan,
                side,
                kind: program.first.sort.kind,
                clock,
                at: at.moment,
                budget,
            })),
            Err(fault) => Err(why_unready(fault)),
        },
        Query::Walk {
            from,
            to,
            dir,
            limit,
            budget,
        } => {
            let first = first_token(from, to, dir);
            walk_over(alloc, &program, clock, first, limit, budget, book)
        }
        Query::Resume {
            token,
            limit,
            budget,
        } => { walk_over(alloc, &program, clock, token, limit, budget, book) }
        Query::Show => Ok(Report::Printed(printed_line(alloc, program)?)),
    }
}

/// The report of a query over a text, or its refusal.
pub(crate) fn prepare<'b>(
    alloc: Global,
    query: Query,
    text: &[u8],
    book: &'b Book,
) -> Result<Report<'b>, Unready>
    requires { IsInRange query }
    ensures { Prepares (entries_of book.now) query text.now result }
{
    let program = meant(alloc, text, book)?;
    match clock_of(query, &program) {
        Ok(clock) => make_report(alloc, query, program, clock, book),
        Err(refusal) => Err(Unready::Refused(refusal)),
    }
}
