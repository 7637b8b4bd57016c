//! Tests of walk_core.

ghost use Rattle.std.specs.Prelude.{◌≡◌, ◌<◌};
ghost use Rattle.moment_core.specs.Line.{IsCalendarPosition};

use crate::given::{is_in_range, set_of};
use moment_core::{Dir, HIGH, LOW, Moment, Pos, Steps, Window};
use plan_core::Plan;
use span_core::Bound::{Closed, Edge, Inf, Open};
use span_core::{Bound, Item, Run, Why, token_fits};
use std::alloc::Global;
use std::marker::Brand;
use std::ops::Range;
use std::process::Abort;
use std::sync::ledger::{Blank, Ledger};
use std::test::Fail;
use stored_pair::Book;
use walk_core::{Walk, both_ends};

const A: Moment = Moment(10);

const B: Moment = Moment(20);

/// The lowest and highest position of a window, the bounds of its items in ascending order, and why
/// none follows, upwards and downwards. The moment `t` is the position `2t`, and the open second
/// after it is `2t + 1`.
struct Row<'s>(i64, i64, &'s [(Bound, Bound)], Why, Why);

impl<'s> Row<'s> {
    fn window(&self, rt: &impl Abort) -> Window
        ensures lo { IsCalendarPosition result.lo.0 }
        ensures hi { IsCalendarPosition result.hi.0 }
    {
        let lo = Pos(self.0);
        let hi = Pos(self.1);
        assert!(rt; is_in_range(lo) && is_in_range(hi));
        Window { lo, hi }
    }

    /// The run that comes after so many others.
    fn run(&self, dir: Dir, before: usize) -> Option<Run> {
        let bounds = match dir {
            Dir::Fore => self.2.get(before),
            Dir::Back => self.2.iter().rev().nth(before),
        };
        bounds.map(|(first, last)| Run {
            first: *first,
            last: *last,
        })
    }

    /// The item of the walk that comes after so many others.
    fn item(&self, dir: Dir, before: usize) -> Item {
        let end = match dir {
            Dir::Fore => self.3,
            Dir::Back => self.4,
        };
        self.run(dir, before).map_or(Item::Done(end), Item::Run)
    }
}

/// The walk gives the items of the row that come after so many others.
fn step_on<L: Ledger>(
    rt: &impl Abort,
    walk: &mut Walk,
    row: &Row,
    dir: Dir,
    items: Range<usize>,
    steps: &mut Steps<L>,
) {
    for before in items {
        assert_eq!(rt; walk.step(100, steps), row.item(dir, before));
    }
}

/// A walk over the window, and one from its token after so many items, give the row's items.
fn walk_in_two_parts<L: Ledger>(
    rt: &impl Abort,
    plan: &mut Plan,
    row: &Row,
    dir: Dir,
    cut: usize,
    steps: &mut Steps<L>,
) {
    let mut walk = Walk::start(plan, row.window(rt), dir);
    step_on(rt, &mut walk, row, dir, 0..cut, steps);
    let t = walk.token();
    step_on(
        rt,
        &mut Walk::resume(plan, t),
        row,
        dir,
        cut..row.2.len() + 1,
        steps,
    );
}

/// The items come one at a time by their tokens.
fn walk_by_tokens<L: Ledger>(
    rt: &impl Abort,
    plan: &mut Plan,
    row: &Row,
    dir: Dir,
    steps: &mut Steps<L>,
) {
    let mut t = Walk::start(plan, row.window(rt), dir).token();
    for before in 0..row.2.len() + 2 {
        assert!(rt; token_fits(t));
        let mut walk = Walk::resume(plan, t);
        assert_eq!(rt; walk.step(100, steps), row.item(dir, before));
        t = walk.token();
    }
}

/// One way: in two parts at every item, and by tokens.
fn walk_row<L: Ledger>(
    rt: &impl Abort,
    plan: &mut Plan,
    row: &Row,
    dir: Dir,
    steps: &mut Steps<L>,
) {
    for cut in 0..row.2.len() + 1 {
        walk_in_two_parts(rt, plan, row, dir, cut, steps);
    }
    walk_by_tokens(rt, plan, row, dir, steps);
}

/// From both ends in turn the items are those of the walk.
fn take_row<L: Ledger>(rt: &impl Abort, plan: &mut Plan, row: &Row, steps: &mut Steps<L>) {
    let mut items = both_ends(plan, row.window(rt), 100, steps);
    for taken in 0..row.2.len() {
        let before = taken / 2;
        if taken % 2 == 0 {
            assert!(rt; items.next() == row.run(Dir::Fore, before).map(Ok));
        } else {
            assert!(rt; items.next_back() == row.run(Dir::Back, before).map(Ok));
        }
    }
    assert!(rt; items.next_back().is_none() && items.next().is_none());
}

fn walk_rows<L: Ledger>(rt: &impl Abort, plan: &mut Plan, rows: &[Row], blank: Blank)
    requires name { blank.name ≡ L.name }
    requires parts { blank.parts ≡ L.parts }
    requires some { 0 < blank.parts }
{
    let mut steps = Steps::<L>::new(blank);
    for row in rows {
        walk_row(rt, plan, row, Dir::Fore, &mut steps);
        walk_row(rt, plan, row, Dir::Back, &mut steps);
        take_row(rt, plan, row, &mut steps);
    }
}

fn all_rows(rt: &impl Abort, plan: &mut Plan, rows: &[Row]) {
    walk_rows::<Brand>(rt, plan, rows, Blank::new(1));
}

fn walk_set(rt: &impl Abort, alloc: Global, text: &str, rows: &[Row]) -> Result<(), Fail> {
    let set = set_of(rt, alloc, text);
    let book = Book::empty(alloc);
    all_rows(rt, &mut Plan::make(alloc, &set, &book)?, rows);
    Ok(())
}

/// The first and the last moment of a span; the two lie between them.
const FIRST: Moment = Moment(0);

const LAST: Moment = Moment(40);

/// No item follows for ever: from there on, upwards, positions repeat by the second.
const ABOVE: Why = Why::None(Window {
    lo: Pos(81),
    hi: Pos(83),
});

/// The same downwards.
const BELOW: Why = Why::None(Window {
    lo: Pos(-3),
    hi: Pos(-1),
});

const TO: Why = Why::To;

const WHOLE: &[(Bound, Bound)] = &[
    (Closed(FIRST), Open(A)),
    (Open(A), Open(B)),
    (Open(B), Closed(LAST)),
];

/// Of the span without the two moments.
const PIECES: &[Row<'static>] = &[
    Row(-10, 100, WHOLE, TO, TO),
    // Cut at moments, at open seconds, and between runs.
    Row(
        10,
        60,
        &[
            (Closed(Moment(5)), Open(A)),
            (Open(A), Open(B)),
            (Open(B), Closed(Moment(30))),
        ],
        TO,
        TO,
    ),
    Row(
        11,
        59,
        &[
            (Open(Moment(5)), Open(A)),
            (Open(A), Open(B)),
            (Open(B), Open(Moment(30))),
        ],
        TO,
        TO,
    ),
    Row(20, 40, &[(Open(A), Open(B))], TO, TO),
    Row(-10, 10, &[(Closed(FIRST), Closed(Moment(5)))], TO, TO),
    Row(71, 100, &[(Open(Moment(35)), Closed(LAST))], TO, TO),
    // Covered by one run, and of one position.
    Row(44, 71, &[(Closed(Moment(22)), Open(Moment(36)))], TO, TO),
    Row(44, 44, &[(Closed(Moment(22)), Closed(Moment(22)))], TO, TO),
    Row(45, 45, &[(Open(Moment(22)), Open(Moment(23)))], TO, TO),
    // Without a member, and with the ends the wrong way round.
    Row(40, 40, &[], TO, TO),
    Row(81, 200, &[], TO, TO),
    Row(30, 29, &[], TO, TO),
    Row(60, 10, &[], TO, TO),
    // Up to the range's own ends.
    Row(2 * LOW, 2 * HIGH, WHOLE, ABOVE, BELOW),
    Row(
        2 * LOW,
        10,
        &[(Closed(FIRST), Closed(Moment(5)))],
        TO,
        BELOW,
    ),
    Row(
        70,
        2 * HIGH,
        &[(Closed(Moment(35)), Closed(LAST))],
        ABOVE,
        TO,
    ),
    Row(81, 2 * HIGH, &[], ABOVE, TO),
];

/// Of all but the two moments.
const REST: &[Row<'static>] = &[
    Row(
        2 * LOW,
        2 * HIGH,
        &[(Inf, Open(A)), (Open(A), Open(B)), (Open(B), Inf)],
        TO,
        TO,
    ),
    Row(2 * LOW, 10, &[(Inf, Closed(Moment(5)))], TO, TO),
    Row(51, 2 * HIGH, &[(Open(Moment(25)), Inf)], TO, TO),
    // From the range's last position no second is left in it, after which positions repeat.
    Row(2 * HIGH, 2 * HIGH, &[(Closed(Moment(HIGH)), Edge)], TO, TO),
];

#[test]
fn items_of_windows_come_in_one_go_by_tokens_and_from_both_ends(
    rt: HostRuntime,
) -> Result<(), Fail> {
    const SPAN_WITHOUT_TWO: &str = "\
span(start 1970-01-01T00:00:00, end 1970-01-01T00:00:40) \
- {1970-01-01T00:00:10, 1970-01-01T00:00:20}";
    const ALL_BUT_TWO: &str = "!{1970-01-01T00:00:10, 1970-01-01T00:00:20}";
    walk_set(&rt, rt.alloc(), SPAN_WITHOUT_TWO, PIECES)?;
    walk_set(&rt, rt.alloc(), ALL_BUT_TWO, REST)
}
