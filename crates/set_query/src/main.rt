//! Answers queries on sets of moments: words and a text in, lines and a status out.
#![tactic(auto)]

ghost use Rattle.std.specs.Prelude.{◌≡◌, ◌<◌};

mod help;
mod laws;
mod query;
mod reading;

use messages::{
    CUT_OFF, Ended, KeptReader, KeptSink, NO_MEMORY, UNREADABLE_WORDS, WAITING, message, unread,
};
use moment_core::Steps;
use outside_core::{StdSink, StdSource};
use query_reply::{put, refuse};
use query_words::read_words;
use report_text::Refusal;
use std::io::{ErrorKind, IsTerminal};
use std::marker::Brand;
use std::process::ExitCode;
use std::sync::ledger::{Blank, Ledger};
use std::{env, io};
use stored_pair::Book;

/// The words after the program's name.
fn words_of(rt: &HostRuntime) -> io::Result<Vec<String>> {
    let mut words = Vec::new(rt.alloc());
    for word in env::args(rt)?.skip(1) {
        words.push(word)?;
    }
    Ok(words)
}

/// Says a message on standard error, where that takes it.
fn say(rt: &HostRuntime, message: &str) {
    let _ = rt.eprintln(message);
}

/// Says why a query ended with this status, where that isn't 0.
fn explain(
    rt: &HostRuntime,
    book: &Book,
    ended: &Ended<'_>,
    failure: Option<ErrorKind>,
    status: u8,
) {
    match status {
        4 => say(rt, unread(failure)),
        5 => say(rt, CUT_OFF),
        6 => say(rt, NO_MEMORY),
        _ => {
            if let Ok(Some(text)) = message(rt.alloc(), book, ended, status) {
                say(rt, text.as_str());
            }
        }
    }
}

/// Answers the query over the standard streams, or writes the help or the version. Words that are
/// no text are refused as a first word that is no command is, and without memory for them the
/// status is 6. What is said on standard error is no part of the answer.
fn answer<L: Ledger>(rt: &HostRuntime, blank: Blank) -> u8
    requires name { blank.name ≡ L.name }
    requires parts { blank.parts ≡ L.parts }
    requires some { 0 < blank.parts }
{
    let alloc = rt.alloc();
    let mut sink = KeptSink::new(StdSink::new(rt.stdout()));
    let words = match words_of(rt) {
        Ok(words) => words,
        Err(e) if e.kind() == io::ErrorKind::OutOfMemory => {
            say(rt, NO_MEMORY);
            return 6;
        }
        Err(_) => {
            say(rt, UNREADABLE_WORDS);
            return refuse(Refusal::Words(0), &mut sink);
        }
    };
    if let Some(text) = help::text_of(&words) {
        return put(&mut sink, text.as_bytes(), 0);
    }
    if rt.stdin().is_terminal() && read_words(&words).is_ok() {
        say(rt, WAITING);
    }
    let book = Book::empty(alloc);
    let mut steps = Steps::<L>::new(blank);
    let mut reader = KeptReader::new(alloc, rt.stdin());
    let mut source = StdSource::new(&mut reader);
    let status = query::run(alloc, &words, &book, &mut source, &mut sink, &mut steps);
    let ended = Ended {
        words: &words,
        text: reader.kept(),
        line: sink.line(),
    };
    explain(rt, &book, &ended, reader.failure(), status);
    status
}

fn main(rt: HostRuntime) -> ExitCode {
    ExitCode::from(answer::<Brand>(&rt, Blank::new(1)))
}

#[cfg(test)]
mod tests;
