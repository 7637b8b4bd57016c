//! The lines of a walk.

ghost use Rattle.std.specs.Prelude.{◌≡◌, ◌+◌, ◌≤◌, ◌++◌, length};
ghost use Rattle.span_core.specs.Answers.{IsCalendarItem};
ghost use Rattle.token_text.specs.Texts.{token_text};
ghost use Rattle.report_text.specs.Items.{item_line, item_text, more_line};

use crate::lines::Line;
use crate::pieces::{put_run, put_window};
use expr_tree::Kind;
use moment_core::Clock;
use span_core::{Item, Token, Why};
use token_text::write_token;

fn put_token(line: &mut Line, t: Token)
    requires { length line.old + 67 ≤ 128 }
    ensures bytes { line.new ≡ line.old ++ token_text t }
    ensures len { length line.new ≤ length line.old + 67 }
{
    line.put(write_token(t).as_slice());
}

fn put_item(line: &mut Line, item: Item, kind: Kind, clock: Clock)
    requires room { length line.old + 74 ≤ 128 }
    requires in_range { IsCalendarItem item }
    ensures bytes { line.new ≡ line.old ++ item_text item kind clock }
    ensures len { length line.new ≤ length line.old + 74 }
{
    match item {
        Item::Run(run) => put_run(line, run, kind, clock),
        Item::Done(Why::To) => line.put(b"end"),
        Item::Done(Why::None(window)) => {
            line.put(b"none ");
            put_window(line, window, clock);
        }
        Item::Done(Why::Edge) => line.put(b"edge"),
        Item::Budget(t) => {
            line.put(b"budget ");
            put_token(line, t);
        }
    }
}

/// The line of an item of a walk: its run or moment, `end` where the window's end was reached,
/// `none` with the window after which the set repeats, `edge`, or `budget` with the token from
/// which the walk can go on.
pub fn line_item(item: Item, kind: Kind, clock: Clock) -> Line
    requires { IsCalendarItem item }
    ensures { result ≡ item_line item kind clock }
{
    let mut line = Line::new();
    put_item(&mut line, item, kind, clock);
    line.end();
    line
}

/// The line of a walk that can go on: `more` with the token from which it can.
pub fn line_more(t: Token) -> Line
    ensures { result ≡ more_line t }
{
    let mut line = Line::new();
    line.put(b"more ");
    put_token(&mut line, t);
    line.end();
    line
}
