//! The library by example: on which day is the next Friday the 13th?
#![tactic(auto)]

ghost use Rattle.std.specs.Prelude.{◌≡◌, ◌<◌};

use anyhow::{Result, bail};
use expr_text::read_sorted;
use moment_core::{Moment, Steps};
use plan_core::Plan;
use query_core::next;
use report_text::line_near;
use std::io::Write;
use std::marker::Brand;
use std::sync::ledger::{Blank, Ledger};
use stored_pair::Book;

/// The 13th of each month that is a Friday.
const TEXT: &str = "monthly(days=13) & weekly(days=5)";

/// 2024-01-01T00:00:00.
const AT: Moment = Moment(1_704_067_200);

/// Reads the text, makes its set ready, finds the next run after the moment and writes its line.
/// Where one of these fails, the error says which.
fn answer<L: Ledger>(rt: &HostRuntime, blank: Blank) -> Result<()>
    requires name { blank.name ≡ L.name }
    requires parts { blank.parts ≡ L.parts }
    requires some { 0 < blank.parts }
{
    let alloc = rt.alloc();
    let book = Book::empty(alloc);
    let program = match read_sorted(alloc, TEXT.as_bytes(), &book) {
        Ok(program) => program,
        Err(fault) => bail!("the text isn't read: {fault}"),
    };
    let mut plan = match Plan::make(alloc, &program.first.set, &book) {
        Ok(plan) => plan,
        Err(fault) => bail!("the set isn't made ready: {fault:?}"),
    };
    let mut steps = Steps::<L>::new(blank);
    let near = next(&mut plan, AT, 1_000_000, &mut steps);
    let line = line_near(near, program.first.sort.kind, program.first.sort.clock);
    rt.stdout().write_all(line.bytes())?;
    Ok(())
}

fn main(rt: HostRuntime) -> Result<()> {
    answer::<Brand>(&rt, Blank::new(1))
}
