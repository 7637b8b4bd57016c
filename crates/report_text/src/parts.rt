//! Rules that have a fault, as lines tell them.

ghost use Rattle.std.specs.Prelude.{◌≡◌, ◌≤◌, ◌+◌, ◌++◌, length};
ghost use Rattle.report_text.specs.Parts.{part_name, rrule_part_name, rule_fault_text};

use crate::lines::Line;
use rule_core::{Part, RuleFault};

/// The name of a key, of a frequency or of a part of RFC 5545 (3.3.10) that is no key.
fn part_name(part: Part) -> &'static [u8]
    ensures text { result.now ≡ part_name part }
    ensures short { length result.now ≤ 10 }
{
    match part {
        Part::Yearly => b"yearly",
        Part::Monthly => b"monthly",
        Part::Weekly => b"weekly",
        Part::Daily => b"daily",
        Part::Hourly => b"hourly",
        Part::Minutely => b"minutely",
        Part::Secondly => b"secondly",
        Part::Months => b"months",
        Part::Weeks => b"weeks",
        Part::Days => b"days",
        Part::Hours => b"hours",
        Part::Minutes => b"minutes",
        Part::Seconds => b"seconds",
        Part::Interval => b"interval",
        Part::Start => b"start",
        Part::WeekStart => b"week_start",
        Part::Freq => b"FREQ",
        Part::Dtstart => b"DTSTART",
        Part::Until => b"UNTIL",
        Part::Count => b"COUNT",
        Part::ByMonth => b"BYMONTH",
        Part::ByWeekNo => b"BYWEEKNO",
        Part::ByYearDay => b"BYYEARDAY",
        Part::ByMonthDay => b"BYMONTHDAY",
        Part::ByDay => b"BYDAY",
        Part::ByHour => b"BYHOUR",
        Part::ByMinute => b"BYMINUTE",
        Part::BySecond => b"BYSECOND",
        Part::BySetPos => b"BYSETPOS",
        Part::Wkst => b"WKST",
    }
}

/// The name of a part of RFC 5545 (3.3.10) in upper case, INTERVAL too, which is also a key.
fn rrule_part_name(part: Part) -> &'static [u8]
    ensures text { result.now ≡ rrule_part_name part }
    ensures short { length result.now ≤ 10 }
{
    match part {
        Part::Interval => b"INTERVAL",
        _ => part_name(part),
    }
}

/// A word, and the name of the part.
fn put_named(line: &mut Line, word: &[u8], part: Part)
    requires room { length line.old + length word.now + 10 ≤ 128 }
    ensures bytes { line.new ≡ line.old ++ (word.now ++ part_name part) }
    ensures len { length line.new ≤ length line.old + length word.now + 10 }
{
    line.put(word);
    line.put(part_name(part));
}

/// A word, and the name of the part of RFC 5545.
pub(crate) fn put_rrule_named(line: &mut Line, word: &[u8], part: Part)
    requires room { length line.old + length word.now + 10 ≤ 128 }
    ensures bytes { line.new ≡ line.old ++ (word.now ++ rrule_part_name part) }
    ensures len { length line.new ≤ length line.old + length word.now + 10 }
{
    line.put(word);
    line.put(rrule_part_name(part));
}

/// Which fault the rule has, with its keys.
pub(crate) fn put_rule_fault(line: &mut Line, fault: RuleFault)
    requires room { length line.old + 25 ≤ 128 }
    ensures bytes { line.new ≡ line.old ++ rule_fault_text fault }
    ensures len { length line.new ≤ length line.old + 25 }
{
    match fault {
        RuleFault::BadMix(first, second) => {
            line.put(b"mix ");
            line.put(part_name(first));
            line.put(b" ");
            line.put(part_name(second));
        }
        RuleFault::BadValue(part) => put_named(line, b"value ", part),
        RuleFault::BadInterval => line.put(b"interval"),
    }
}
