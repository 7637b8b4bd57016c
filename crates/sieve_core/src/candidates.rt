ghost use Rattle.std.specs.Prelude.{◌≡◌, ◌↔◌, ◌<◌, ℤ, pos, ◌*ℤ◌, ◌+ℤ◌, true, false, IsTrue, IfSome, IfNone};
ghost use Rattle.moment_core.specs.Line.{IsWorkingMoment};
ghost use Rattle.moment_core.specs.Sets.{ahead};
ghost use Rattle.moment_core.specs.Steps.{IsNext, IsNextCandidate, IsNextStep, IsPrevious, NoCandidateLeft};
ghost use Rattle.moment_core.specs.TimeOfDay.{day_of, second_of_day};
ghost use Rattle.moment_core.specs.declared.line.Dir.TheVariants.{Fore, Back};
ghost use Rattle.sieve_core.specs.Members.{has, is_between, is_candidate, is_mark, is_midnight, meets_tests};
ghost use Rattle.sieve_core.specs.Nearest.{IsNearest, IsStart, moment_in, IsNearestOfDay, steps_to_midnight};
ghost use Rattle.sieve_core.specs.Sieves.{IsSieve};

use crate::members::second_of_day;
use crate::tables::Sieve;
use crate::times::{steps_on, turn};
use moment_core::{Dir, Moment, Step, in_work};

// A moment at which a search stops, and whether it is known to meet the tests.
#[derive(Clone, Copy)]
pub(crate) struct Near {
    pub moment: Moment,
    pub met: bool,
}

// The next midnight past a moment that isn't one.
fn midnight(dir: Dir, t: Moment) -> Moment
    requires working { IsWorkingMoment t.0 }
    requires past { 0 < second_of_day t.0 }
    ensures place { result.0 ≡ ahead dir t.0 (steps_to_midnight dir t.0) }
    ensures midnight { is_midnight result.0 ≡ true }
{
    let day = t.0.div_euclid(86_400);
    match dir {
        Dir::Fore => Moment((day + 1) * 86_400),
        Dir::Back => Moment(day * 86_400),
    }
}

// The moment with a second of the same day.
fn at_second(t: Moment, second: usize) -> Moment
    requires moment { IsWorkingMoment t.0 }
    requires second { second < 86_400 }
    ensures { result.0 ≡ day_of t.0 *ℤ pos 86_400 +ℤ pos second }
{
    Moment(t.0.div_euclid(86_400) * 86_400 + second as i64)
}

impl Sieve {
    // One moment on, or where the sieve begins.
    pub(crate) fn start(&self, dir: Dir, t: Moment) -> Moment
        requires { IsWorkingMoment t.0 }
        ensures { IsStart self.now dir t.0 result.0 }
    {
        let next = steps_on(dir, t, 1);
        match dir {
            Dir::Fore => {
                if next.0 < self.first.0 {
                    self.first
                } else {
                    next
                }
            }
            Dir::Back => {
                if self.last.0 < next.0 {
                    self.last
                } else {
                    next
                }
            }
        }
    }

    // Whether the moment is in the working range and from the first to the last one.
    pub(crate) fn is_open(&self, t: Moment) -> bool
        ensures { IsTrue result ↔ (IsWorkingMoment t.0 × (is_between self.now t.0 ≡ true)) }
    {
        in_work(t) && self.is_between(t)
    }

    // The first moment that meets the tests, up to the next midnight.
    fn nearest_of_day(&self, dir: Dir, t: Moment) -> Option<Moment>
        requires working { IsWorkingMoment t.0 }
        requires past { 0 < second_of_day t.0 }
        ensures { IsNearestOfDay self.now dir t.0 (moment_in result) }
    {
        match self.first_second(dir, turn(dir, 86_400, second_of_day(t))) {
            None => None,
            Some(n) => {
                let second = turn(dir, 86_400, n);
                if second == 0 {
                    return None;
                }
                if self.days.meets_day(t) {
                    Some(at_second(t, second))
                } else {
                    None
                }
            }
        }
    }

    // The nearest midnight or moment that meets the tests, from a moment on.
    fn nearest(&self, dir: Dir, t: Moment) -> Near
        requires { IsWorkingMoment t.0 }
        ensures near { IsNearest (is_mark self.now) dir t.0 result.moment.0 }
        ensures met { result.met ≡ true → meets_tests self.now result.moment.0 ≡ true }
    {
        if second_of_day(t) == 0 {
            return Near {
                moment: t,
                met: false,
            };
        }
        match self.nearest_of_day(dir, t) {
            Some(u) => Near {
                moment: u,
                met: true,
            },
            None => Near {
                moment: midnight(dir, t),
                met: false,
            },
        }
    }

    // Whether it meets the tests.
    pub(crate) fn is_met(&self, near: Near) -> bool
        requires moment { IsWorkingMoment near.moment.0 }
        requires met { near.met ≡ true → meets_tests self.now near.moment.0 ≡ true }
        ensures { result ≡ meets_tests self.now near.moment.0 }
    {
        near.met || self.meets_tests(near.moment)
    }

    // Whether it is a member.
    #[tactic(auto, using(crate::proofs::RuleLemmas::has_between), unfolding(crate::specs::Members::meets_rule))]
    fn is_member(&self, near: Near) -> bool
        requires sieve { IsSieve self.now }
        requires moment { IsWorkingMoment near.moment.0 }
        requires between { is_between self.now near.moment.0 ≡ true }
        requires met { near.met ≡ true → meets_tests self.now near.moment.0 ≡ true }
        ensures { result ≡ has self.now near.moment.0 }
    {
        self.is_met(near) && self.meets_turn(near.moment)
    }

    // The nearest candidate past a moment, not yet tested.
    #[inline(always)]
    pub(crate) fn next_near(&self, dir: Dir, t: Moment) -> Option<Near>
        requires { IsWorkingMoment t.0 }
        ensures next { IfSome result
            (λ near. IsNextCandidate (is_candidate self.now) dir t.0 near.moment.0) }
        ensures between { IfSome result (λ near. is_between self.now near.moment.0 ≡ true) }
        ensures met { IfSome result
            (λ near. near.met ≡ true → meets_tests self.now near.moment.0 ≡ true) }
        ensures none { IfNone result (NoCandidateLeft (is_candidate self.now) dir t.0) }
    {
        let start = self.start(dir, t);
        if !self.is_open(start) {
            return None;
        }
        let near = self.nearest(dir, start);
        if self.is_open(near.moment) {
            Some(near)
        } else {
            None
        }
    }

    // The nearest candidate past a moment.
    fn next_candidate(&self, dir: Dir, t: Moment) -> Step
        requires sieve { IsSieve self.now }
        requires moment { IsWorkingMoment t.0 }
        ensures { IsNextStep (has self.now) (is_candidate self.now) dir t.0 result }
    {
        match self.next_near(dir, t) {
            None => Step::End,
            Some(near) => {
                if self.is_member(near) {
                    Step::Hit(near.moment)
                } else {
                    Step::Pass(near.moment)
                }
            }
        }
    }

    /// The least candidate after the moment in the working range: `Hit` where it is a member,
    /// `Pass` where it isn't, and `End` where there is no such candidate.
    ///
    /// The moment may be any of the working range, a candidate or not, also one outside the sieve's
    /// ends.
    pub fn after(&self, t: Moment) -> Step
        requires sieve { IsSieve self.now }
        requires moment { IsWorkingMoment t.0 }
        ensures next { IsNext (has self.now) (is_candidate self.now) t.0 result }
    {
        self.next_candidate(Dir::Fore, t)
    }

    /// The greatest candidate before the moment in the working range, in the same way and of any
    /// such moment.
    pub fn before(&self, t: Moment) -> Step
        requires sieve { IsSieve self.now }
        requires moment { IsWorkingMoment t.0 }
        ensures next { IsPrevious (has self.now) (is_candidate self.now) t.0 result }
    {
        self.next_candidate(Dir::Back, t)
    }
}
