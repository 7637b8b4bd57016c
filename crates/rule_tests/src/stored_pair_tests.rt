ghost use Rattle.std.specs.Prelude.{◌≡◌, ◌+◌, ◌<◌};
ghost use Rattle.moment_core.specs.Counter.{capped};
ghost use Rattle.moment_core.specs.Line.{IsWorkingMoment};

use frame_core::Frame;
use moment_core::{Moment, Step, Steps};
use std::marker::Brand;
use std::sync::ledger::{Blank, Ledger};
use stored_pair::{Book, Guarded, Recurrence, recurrence_laws};

// One moment of the working range, and no other candidate.
#[derive(Drop)]
struct Once {
    moment: Moment,
    ghost working: { IsWorkingMoment moment.0 },
}

impl Recurrence for Once {
    ghost use Rattle.std.specs.Prelude.{None};
    ghost use Rattle.std.specs.Ordering.{int_eq};

    ghost has = { λ once t. int_eq t once.moment.0 };

    ghost cand = { λ once t. int_eq t once.moment.0 };

    ghost frame = { λ once. None };

    fn test(&self, t: Moment) -> bool {
        t.0 == self.moment.0
    }

    fn after(&self, t: Moment) -> Step {
        recurrence_laws();
        if t.0 < self.moment.0 {
            Step::Hit(self.moment)
        } else {
            Step::End
        }
    }

    fn before(&self, t: Moment) -> Step {
        recurrence_laws();
        if self.moment.0 < t.0 {
            Step::Hit(self.moment)
        } else {
            Step::End
        }
    }

    fn frame(&self) -> Option<Frame> {
        None
    }
}

// Whether the moment is a member, and the steps after and before it: three steps in all, for the
// frame isn't counted.
fn look<R: Recurrence, L: Ledger>(
    leaf: &Guarded<R>,
    t: Moment,
    steps: &mut Steps<L>,
) -> (bool, Step, Step)
    requires { IsWorkingMoment t.0 }
    ensures { steps.new ≡ capped (steps.old + 3) }
{
    let _frame = leaf.frame();
    let member = leaf.test(t, steps);
    let after = leaf.after(t, steps);
    let before = leaf.before(t, steps);
    (member, after, before)
}

fn looks<L: Ledger>(blank: Blank) -> [(bool, Step, Step); 3]
    requires name { blank.name ≡ L.name }
    requires parts { blank.parts ≡ L.parts }
    requires some { 0 < blank.parts }
{
    let mut steps = Steps::<L>::new(blank);
    let leaf = Guarded::new(Once { moment: Moment(10) });
    [
        look(&leaf, Moment(9), &mut steps),
        look(&leaf, Moment(10), &mut steps),
        look(&leaf, Moment(11), &mut steps),
    ]
}

#[test]
fn a_guarded_recurrence_answers_and_counts_three_steps(rt: HostRuntime) {
    let hit = Step::Hit(Moment(10));
    assert_eq!(rt;
        looks::<Brand>(Blank::new(1)),
        [
            (false, hit, Step::End),
            (true, Step::End, Step::End),
            (false, Step::End, hit),
        ]
    );
    assert_eq!(rt; Guarded::new(Once { moment: Moment(10) }).frame(), None);
}

#[test]
fn an_empty_book_has_no_name(rt: HostRuntime) {
    let book = Book::empty(rt.alloc());
    assert_eq!(rt; book.find("rota"), None);
    assert_eq!(rt; book.find(""), None);
}
