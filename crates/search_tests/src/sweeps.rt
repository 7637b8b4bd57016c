//! Tests of cert_audit: what searches and tests answer of a set made ready. The moment `t` is the
//! position `2t`, and the open second after it is `2t + 1`.

ghost use Rattle.std.specs.Prelude.{◌≡◌, ◌<◌};
ghost use Rattle.moment_core.specs.Line.{IsCalendarPosition};

use crate::given::{is_in_range, rows_of, set_of};
use cert_audit::{Ready, sweep};
use moment_core::{Dir, HIGH, LOW, Pos, Steps};
use span_core::{Answer, Test};
use std::alloc::{AllocError, Global};
use std::marker::Brand;
use std::process::Abort;
use std::sync::ledger::{Blank, Ledger};
use std::test::Fail;
use stored_pair::Book;

/// What a search at the position answers, and whether the position is a member.
fn search<L: Ledger>(
    rt: &impl Abort,
    r: &Ready,
    p: Pos,
    dir: Dir,
    budget: u64,
    blank: Blank,
) -> (Answer, Test)
    requires name { blank.name ≡ L.name }
    requires parts { blank.parts ≡ L.parts }
    requires some { 0 < blank.parts }
{
    assert!(rt; is_in_range(p) && 1 <= budget);
    let mut steps = Steps::<L>::new(blank);
    let answer = sweep(r, p, dir, budget, &mut steps);
    (answer, r.test(p, budget, &mut steps))
}

fn answer(rt: &impl Abort, r: &Ready, p: Pos, dir: Dir, budget: u64) -> (Answer, Test) {
    let blank = Blank::new(1);
    search::<Brand>(rt, r, p, dir, budget, blank)
}

/// The answer to a search that way or, under `test`, whether the position is a member.
fn told(
    rt: &impl Abort,
    alloc: Global,
    r: &Ready,
    what: &str,
    p: Pos,
    budget: u64,
) -> Result<String, AllocError> {
    let dir = if what == "back" { Dir::Back } else { Dir::Fore };
    let (answer, test) = answer(rt, r, p, dir, budget);
    match what {
        "fore" | "back" => format!(in alloc; "{answer:?}"),
        "test" => format!(in alloc; "{test:?}"),
        _ => panic!(rt; "{what} asks nothing"),
    }
}

/// What is told where a row asks by `fore`, `back` or `test`, a position and a budget.
fn told_by(rt: &impl Abort, alloc: Global, r: &Ready, asked: &str) -> Result<String, Fail> {
    let Some((what, rest)) = asked.split_once(" ") else {
        panic!(rt; "no position in {asked}");
    };
    let Some((p, budget)) = rest.split_once(" ") else {
        panic!(rt; "no budget in {asked}");
    };
    Ok(told(
        rt,
        alloc,
        r,
        what,
        Pos(p.parse::<i64>()?),
        budget.parse::<u64>()?,
    )?)
}

/// The set of the text answers each row so.
fn answers(rt: &impl Abort, alloc: Global, text: &str, rows: &str) -> Result<(), Fail> {
    let set = set_of(rt, alloc, text);
    let book = Book::empty(alloc);
    let ready = Ready::make(alloc, &set, &book)?;
    for (asked, wanted) in rows_of(rt, alloc, rows)? {
        let found = told_by(rt, alloc, &ready, asked)?;
        assert_eq!(rt; found.as_str(), wanted, "{asked} of {text}");
    }
    Ok(())
}

#[test]
fn all_but_one_moment(rt: HostRuntime) -> Result<(), Fail> {
    const ROWS: &str = "\
fore 2082758395 100 -> At(Pos(2082758400))
fore 2082758400 100 -> At(Pos(2082758401))
fore 2082758401 100 -> None(Window { lo: Pos(2082758401), hi: Pos(2082758403) })
";
    answers(&rt, rt.alloc(), "!{2003-01-01T00:00:00}", ROWS)
}

#[test]
fn no_position_is_found_at_the_end_of_the_range(rt: HostRuntime) -> Result<(), Fail> {
    let p = 2 * HIGH;
    let row = format!(in rt.alloc(); "fore {p} 100 -> Edge")?;
    answers(&rt, rt.alloc(), "empty()", &row)
}

/// Two moments less themselves, at the positions 0 and 20.
const NO_MOMENT: &str = "\
{1970-01-01T00:00:00, 1970-01-01T00:00:10} - {1970-01-01T00:00:00, 1970-01-01T00:00:10}";

#[test]
fn a_search_stops_once_the_candidates_are_as_many_as_the_budget(
    rt: HostRuntime,
) -> Result<(), Fail> {
    const ROWS: &str = "\
fore -5 1 -> Budget(Stop { at: Pos(0), node: 0 })
fore -5 100 -> None(Window { lo: Pos(21), hi: Pos(23) })
";
    answers(&rt, rt.alloc(), NO_MOMENT, ROWS)
}

#[test]
fn a_bound_of_a_span_counts_as_a_candidate(rt: HostRuntime) -> Result<(), Fail> {
    const TEXT: &str = "\
span(start 1970-01-01T00:00:00, end 1970-01-01T00:00:10) \
- span(start 1970-01-01T00:00:00, end 1970-01-01T00:00:10)";
    const ROWS: &str = "\
fore -5 1 -> Budget(Stop { at: Pos(0), node: 0 })
fore -5 2 -> Budget(Stop { at: Pos(21), node: 0 })
back 25 1 -> Budget(Stop { at: Pos(20), node: 0 })
";
    answers(&rt, rt.alloc(), TEXT, ROWS)
}

#[test]
fn sets_made_from_sets_change_where_their_definitions_say(rt: HostRuntime) -> Result<(), Fail> {
    const ROWS: &[(&str, &str)] = &[
        (
            "during({1970-01-01T00:00:00, 1970-01-01T00:00:03}, 2)",
            "\
fore -5 1000 -> At(Pos(0))
fore 0 1000 -> At(Pos(4))
fore 4 1000 -> At(Pos(6))
fore 6 1000 -> At(Pos(10))
",
        ),
        (
            "\
pairs({1970-01-01T00:00:00, 1970-01-01T00:00:05}, {1970-01-01T00:00:00, 1970-01-01T00:00:09})",
            "\
fore -5 1000 -> At(Pos(0))
fore 0 1000 -> At(Pos(18))
",
        ),
        (
            "starts(span(after 1970-01-01T00:00:05, end 1970-01-01T00:00:09))",
            "fore -5 1000 -> At(Pos(10))",
        ),
        (
            "starts(span(start 1970-01-01T00:00:00, before 1970-01-01T00:00:05))",
            "fore -5 1000 -> At(Pos(0))",
        ),
        (
            "ends(span(after 1970-01-01T00:00:05, end 1970-01-01T00:00:09))",
            "fore -5 1000 -> At(Pos(18))",
        ),
        (
            "ends(span(start 1970-01-01T00:00:00, before 1970-01-01T00:00:05))",
            "fore -5 1000 -> At(Pos(10))",
        ),
        (
            "shift(span(start 1970-01-01T00:00:00, before 1970-01-01T00:00:05), -1)",
            "fore -5 1000 -> At(Pos(-2))",
        ),
    ];
    for (text, rows) in ROWS {
        answers(&rt, rt.alloc(), text, rows)?;
    }
    Ok(())
}

#[test]
fn looking_back_stops_once_the_candidates_are_as_many_as_the_budget(
    rt: HostRuntime,
) -> Result<(), Fail> {
    const LASTING: &str = "\
during({1970-01-01T00:00:00, 1970-01-01T00:00:10} \
- {1970-01-01T00:00:00, 1970-01-01T00:00:10}, 20)";
    const OF_LASTING: &str = "\
fore 24 1 -> Budget(Stop { at: Pos(20), node: 1 })
test 24 1 -> Budget(Stop { at: Pos(20), node: 1 })
";
    const PAIRED: &str = "\
pairs({1970-01-01T00:00:00, 1970-01-01T00:00:10} \
- {1970-01-01T00:00:00, 1970-01-01T00:00:10}, {1969-12-31T23:43:20})";
    const OF_PAIRED: &str = "\
fore 24 1 -> Budget(Stop { at: Pos(20), node: 1 })
test 24 1 -> Budget(Stop { at: Pos(20), node: 1 })
fore 24 2 -> Budget(Stop { at: Pos(0), node: 1 })
test 24 2 -> Budget(Stop { at: Pos(0), node: 1 })
fore 24 3 -> None(Window { lo: Pos(24), hi: Pos(26) })
test 24 3 -> Out
";
    const BESIDE: &str = "\
{1969-12-31T23:43:20} | pairs({1970-01-01T00:00:00, 1970-01-01T00:00:10} \
- {1970-01-01T00:00:00, 1970-01-01T00:00:10}, {1969-12-31T23:43:20})";
    const OF_BESIDE: &str = "\
fore 24 2 -> Budget(Stop { at: Pos(0), node: 3 })
test 24 2 -> Budget(Stop { at: Pos(0), node: 3 })
";
    answers(&rt, rt.alloc(), LASTING, OF_LASTING)?;
    answers(&rt, rt.alloc(), PAIRED, OF_PAIRED)?;
    answers(&rt, rt.alloc(), BESIDE, OF_BESIDE)
}

#[test]
fn nothing_changes_past_a_span_either_way(rt: HostRuntime) -> Result<(), Fail> {
    const TEXT: &str = "span(start 1970-01-01T00:00:00, before 1970-01-01T00:00:05)";
    const ROWS: &str = "\
fore 12 1 -> None(Window { lo: Pos(12), hi: Pos(14) })
back -3 1 -> None(Window { lo: Pos(-5), hi: Pos(-3) })
";
    answers(&rt, rt.alloc(), TEXT, ROWS)
}

/// The position so many steps on.
fn ahead(p: Pos, dir: Dir, steps: u32) -> Pos
    requires p { IsCalendarPosition p.0 }
    requires steps { steps < 100 }
{
    let away = i64::from(steps);
    match dir {
        Dir::Fore => Pos(p.0 + away),
        Dir::Back => Pos(p.0 - away),
    }
}

fn member(rt: &impl Abort, r: &Ready, p: Pos) -> bool {
    answer(rt, r, p, Dir::Fore, 1000).1 == Test::In
}

/// The nearest position within 60 steps whose membership differs, found by asking each one.
fn nearest_asked(rt: &impl Abort, r: &Ready, p: Pos, dir: Dir) -> Option<Pos>
    requires { IsCalendarPosition p.0 }
{
    let here = member(rt, r, p);
    for steps in 1..61 {
        let q = ahead(p, dir, steps);
        if is_in_range(q) && member(rt, r, q) != here {
            return Some(q);
        }
    }
    None
}

/// A search from the position, that way, finds what asking each position finds.
fn agrees(rt: &impl Abort, r: &Ready, p: Pos, dir: Dir)
    requires { IsCalendarPosition p.0 }
{
    let found = match answer(rt, r, p, dir, 1000).0 {
        Answer::At(q) => Some(q),
        _ => None,
    };
    assert_eq!(rt; found, nearest_asked(rt, r, p, dir), "{dir:?} from {p:?}");
}

/// Searches from 32 positions on, both ways, find what asking each position finds.
fn agree(rt: &impl Abort, alloc: Global, text: &str, first: Pos) -> Result<(), Fail> {
    let set = set_of(rt, alloc, text);
    let book = Book::empty(alloc);
    let ready = Ready::make(alloc, &set, &book)?;
    assert!(rt; is_in_range(first));
    for steps in 0..32 {
        let p = ahead(first, Dir::Fore, steps);
        if is_in_range(p) {
            agrees(rt, &ready, p, Dir::Fore);
            agrees(rt, &ready, p, Dir::Back);
        }
    }
    Ok(())
}

#[test]
fn a_search_finds_what_asking_each_position_finds(rt: HostRuntime) -> Result<(), Fail> {
    const SETS: &str = "\
{1970-01-01T00:00:00, 1970-01-01T00:00:03}
span(start 1970-01-01T00:00:00, before 1970-01-01T00:00:05) \
    | span(after 1970-01-01T00:00:05, end 1970-01-01T00:00:09)
span(start 1970-01-01T00:00:00, before 1970-01-01T00:00:05) \
    | span(start 1970-01-01T00:00:05, end 1970-01-01T00:00:09)
span(start 1970-01-01T00:00:00, end 1970-01-01T00:00:05) & span(start 1970-01-01T00:00:05)
!(span(end 1970-01-01T00:00:09) - {1970-01-01T00:00:02, 1970-01-01T00:00:02})
during({1970-01-01T00:00:00, 1970-01-01T00:00:03}, 2)
pairs({1970-01-01T00:00:00, 1970-01-01T00:00:05}, {1970-01-01T00:00:02, 1970-01-01T00:00:09})
starts(span(after 1970-01-01T00:00:05, end 1970-01-01T00:00:09))
ends(span(after 1970-01-01T00:00:05, end 1970-01-01T00:00:09))
shift(span(start 1970-01-01T00:00:00, before 1970-01-01T00:00:05), -1)
";
    for text in SETS.lines() {
        agree(&rt, rt.alloc(), text, Pos(-5))?;
    }
    Ok(())
}

#[test]
fn so_it_does_at_both_ends_of_the_range(rt: HostRuntime) -> Result<(), Fail> {
    const HIGHEST: &str =
        "span(start 9900-12-31T23:59:56) - {9900-12-31T23:59:58, 9900-12-31T23:59:59}";
    const LOWEST: &str =
        "span(before -9900-01-01T00:00:01) | {-9900-01-01T00:00:00, -9900-01-01T00:00:02}";
    agree(&rt, rt.alloc(), HIGHEST, Pos(2 * HIGH - 12))?;
    agree(&rt, rt.alloc(), LOWEST, Pos(2 * LOW))
}
