//! The lines that refuse words or a text.

ghost use Rattle.std.specs.Prelude.{◌≡◌, ◌≤◌, ◌+◌, ◌++◌, decimal, length};
ghost use Rattle.report_text.specs.Refusals.{IsPrintable, refusal_line, refusal_text, sort_text};

use crate::lines::Line;
use crate::parts::{put_rrule_named, put_rule_fault};
use crate::pieces::{put_moment, put_number};
use expr_tree::SortFault;
use moment_core::{Clock, Moment};
use rule_core::{Part, RuleFault};

/// Why a query isn't answered. The first cause of this order decides.
#[derive(Clone, Copy, Debug, PartialEq, Eq)]
pub enum Refusal {
    /// The word of this number is bad, or one is missing.
    Words(usize),
    /// A command or a call that isn't built.
    Unbuilt,
    /// The text has too many bytes.
    Long,
    /// No token begins at the byte.
    Token(usize),
    /// The tokens spell no program.
    Syntax,
    /// A literal names no moment, or a span has no position.
    Moment(usize),
    /// A rule by fields is none, by its fault.
    Rule(RuleFault),
    /// The text of a rule of RFC 5545 isn't of the form of one.
    RruleSyntax,
    /// The part stands twice in the text of a rule.
    RruleRepeated(Part),
    /// The rule that a text writes is none, by its fault.
    Rrule(RuleFault),
    /// An expression has no sort.
    Sort(SortFault),
    /// The number of expressions isn't the command's.
    Two,
    /// A word's moment stands on another clock than the expressions.
    Clock,
    /// A rule with a count has no last member within so many candidates, the last of them at the
    /// moment.
    Settle { passed: u64, at: Moment },
}

fn sort_text(fault: SortFault) -> &'static [u8]
    ensures text { result.now ≡ sort_text fault }
    ensures short { length result.now ≤ 6 }
{
    match fault {
        SortFault::Nodes => b"nodes",
        SortFault::Depth => b"depth",
        SortFault::Event => b"event",
        SortFault::Kind => b"kind",
        SortFault::Clock => b"clock",
        SortFault::Reach => b"reach",
    }
}

/// A word and a number in decimal.
fn put_numbered(line: &mut Line, word: &[u8], number: u64)
    requires { length line.old + length word.now + 20 ≤ 128 }
    ensures bytes { line.new ≡ line.old ++ (word.now ++ decimal number) }
    ensures len { length line.new ≤ length line.old + length word.now + 20 }
{
    line.put(word);
    put_number(line, number);
}

fn put_refusal(line: &mut Line, refusal: Refusal)
    requires room { length line.old + 60 ≤ 128 }
    requires printable { IsPrintable refusal }
    ensures bytes { line.new ≡ line.old ++ refusal_text refusal }
    ensures len { length line.new ≤ length line.old + 60 }
{
    match refusal {
        Refusal::Words(n) => put_numbered(line, b"words ", n as u64),
        Refusal::Unbuilt => line.put(b"unbuilt"),
        Refusal::Long => line.put(b"long"),
        Refusal::Token(byte) => put_numbered(line, b"token ", byte as u64),
        Refusal::Syntax => line.put(b"syntax"),
        Refusal::Moment(byte) => put_numbered(line, b"moment ", byte as u64),
        Refusal::Rule(fault) => {
            line.put(b"rule ");
            put_rule_fault(line, fault);
        }
        Refusal::RruleSyntax => line.put(b"rrule syntax"),
        Refusal::RruleRepeated(part) => put_rrule_named(line, b"rrule repeated ", part),
        Refusal::Rrule(fault) => {
            line.put(b"rrule ");
            put_rule_fault(line, fault);
        }
        Refusal::Sort(fault) => {
            line.put(b"sort ");
            line.put(sort_text(fault));
        }
        Refusal::Two => line.put(b"two"),
        Refusal::Clock => line.put(b"clock"),
        Refusal::Settle { passed, at } => {
            put_numbered(line, b"settle ", passed);
            line.put(b" ");
            put_moment(line, at, Clock::Floating);
        }
    }
}

/// The line of a refusal.
pub fn line_refusal(refusal: Refusal) -> Line
    requires { IsPrintable refusal }
    ensures { result ≡ refusal_line refusal }
{
    let mut line = Line::new();
    line.put(b"refused ");
    put_refusal(&mut line, refusal);
    line.end();
    line
}
