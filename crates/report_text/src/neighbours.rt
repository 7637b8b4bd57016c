ghost use Rattle.std.specs.Prelude.{◌≡◌, ◌+◌, ◌≤◌, ◌++◌, length};
ghost use Rattle.span_core.specs.Answers.{IsCalendarNear};
ghost use Rattle.report_text.specs.Lines.{near_line, near_text, test_line, test_text};

use crate::lines::Line;
use crate::pieces::{put_run, put_stop, put_window};
use expr_tree::Kind;
use moment_core::Clock;
use span_core::{Near, Test};

fn put_near(line: &mut Line, near: Near, kind: Kind, clock: Clock)
    requires room { length line.old + 51 ≤ 128 }
    requires in_range { IsCalendarNear near }
    ensures bytes { line.new ≡ line.old ++ near_text near kind clock }
    ensures len { length line.new ≤ length line.old + 51 }
{
    match near {
        Near::Found(run) => put_run(line, run, kind, clock),
        Near::None(window) => {
            line.put(b"none ");
            put_window(line, window, clock);
        }
        Near::Edge => line.put(b"edge"),
        Near::Budget(stop) => {
            line.put(b"budget ");
            put_stop(line, stop);
        }
    }
}

/// The line of a neighbour: its run or moment, `none` with the window after which the set repeats,
/// `edge`, or `budget` with the position and the node of the stop.
pub fn line_near(near: Near, kind: Kind, clock: Clock) -> Line
    requires { IsCalendarNear near }
    ensures { result ≡ near_line near kind clock }
{
    let mut line = Line::new();
    put_near(&mut line, near, kind, clock);
    line.end();
    line
}

fn put_test(line: &mut Line, test: Test)
    requires { length line.old + 48 ≤ 128 }
    ensures bytes { line.new ≡ line.old ++ test_text test }
    ensures len { length line.new ≤ length line.old + 48 }
{
    match test {
        Test::In => line.put(b"yes"),
        Test::Out => line.put(b"no"),
        Test::Budget(stop) => {
            line.put(b"budget ");
            put_stop(line, stop);
        }
    }
}

/// The line that tells whether a moment is a member: `yes`, `no`, or `budget` with the position and
/// the node of the stop.
pub fn line_test(test: Test) -> Line
    ensures { result ≡ test_line test }
{
    let mut line = Line::new();
    put_test(&mut line, test);
    line.end();
    line
}
