//! Tests of plan_core.

ghost use Rattle.std.specs.Prelude.{◌≡◌, ◌<◌};

use crate::given::set_of;
use moment_core::{Dir, Pos, Steps, Window};
use plan_core::Plan;
use span_core::{Answer, Test};
use std::marker::Brand;
use std::sync::ledger::{Blank, Ledger};
use std::test::Fail;
use stored_pair::Book;

/// The window of one second before the position 2, in which a set that stays the same repeats.
const NEVER: Window = Window {
    lo: Pos(0),
    hi: Pos(2),
};

/// What a plan tells of the position 2, and the nearest change past it.
fn counted<L: Ledger>(plan: &mut Plan, dir: Dir, blank: Blank) -> (Test, Answer)
    requires name { blank.name ≡ L.name }
    requires parts { blank.parts ≡ L.parts }
    requires some { 0 < blank.parts }
{
    let mut steps = Steps::<L>::new(blank);
    plan.begin(Pos(2), dir);
    let test = plan.test(Pos(2), 10, &mut steps);
    (test, plan.change(Pos(2), dir, 10, &mut steps))
}

fn asked(plan: &mut Plan, dir: Dir) -> (Test, Answer) {
    counted::<Brand>(plan, dir, Blank::new(1))
}

#[test]
fn a_plan_answers_both_ways(rt: HostRuntime) -> Result<(), Fail> {
    let set = set_of(&rt, rt.alloc(), "{1970-01-01T00:00:03}");
    let book = Book::empty(rt.alloc());
    let mut plan = Plan::make(rt.alloc(), &set, &book)?;
    let fore = asked(&mut plan, Dir::Fore);
    assert_eq!(&rt; fore, (Test::Out, Answer::At(Pos(6))));
    let back = asked(&mut plan, Dir::Back);
    assert_eq!(&rt; back, (Test::Out, Answer::None(NEVER)));
    Ok(())
}
