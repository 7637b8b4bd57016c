ghost use Rattle.std.specs.Prelude.{◌≡◌, ◌<◌};

use moment_core::{Dir, Moment, Step, Steps, in_work};
use std::sync::ledger::{Blank, Ledger};
use stored_pair::{Guarded, Recurrence};

/// The members nearest to a moment, before and after it.
pub(crate) type Near = (Option<i64>, Option<i64>);

/// The nearest member, where 146,200 candidates lead to it: the midnights of 400 years, and some.
fn nearest<R: Recurrence, L: Ledger>(
    leaf: &Guarded<R>,
    from: i64,
    dir: Dir,
    steps: &mut Steps<L>,
) -> Option<i64> {
    let mut at = Moment(from);
    for _ in 0..146_200usize {
        if !in_work(at) {
            return None;
        }
        let step = match dir {
            Dir::Fore => leaf.after(at, steps),
            Dir::Back => leaf.before(at, steps),
        };
        match step {
            Step::Hit(member) => return Some(member.0),
            Step::Pass(candidate) => at = candidate,
            Step::End => return None,
        }
    }
    None
}

/// The nearest members of a rule that was made ready.
pub(crate) fn near<R: Recurrence, L: Ledger>(leaf: &Guarded<R>, blank: Blank, from: i64) -> Near
    requires name { blank.name ≡ L.name }
    requires parts { blank.parts ≡ L.parts }
    requires some { 0 < blank.parts }
{
    let mut steps = Steps::<L>::new(blank);
    (
        nearest(leaf, from, Dir::Back, &mut steps),
        nearest(leaf, from, Dir::Fore, &mut steps),
    )
}
