ghost use Rattle.std.specs.Prelude.{◌≡◌, ◌<◌, ◌≤◌, ◌+◌, ◌-◌, ◌*◌, ◌/◌, ◌%◌};
ghost use Rattle.moment_core.specs.Line.{IsWorkingMoment};
ghost use Rattle.moment_core.specs.Sets.{ahead};
ghost use Rattle.sieve_core.specs.Times.{IsLeastIn, meets_minute, meets_second, turn, turned_bit};

use crate::bits::{first_bit, has_bit};
use crate::tables::Sieve;
use moment_core::{Dir, Moment};

/// Number `i` of `len`, counted from the end where the direction is backwards.
pub(crate) fn turn(dir: Dir, len: usize, i: usize) -> usize
    requires { i < len }
    ensures { result ≡ turn dir len i }
{
    match dir {
        Dir::Fore => i,
        Dir::Back => len - (i + 1),
    }
}

/// The moment so many steps on.
pub(crate) fn steps_on(dir: Dir, t: Moment, n: usize) -> Moment
    requires moment { IsWorkingMoment t.0 }
    requires steps { n ≤ 34_560_000 }
    ensures { result.0 ≡ ahead dir t.0 n }
{
    match dir {
        Dir::Fore => Moment(t.0 + n as i64),
        Dir::Back => Moment(t.0 - n as i64),
    }
}

impl Sieve {
    pub(crate) fn has_hour(&self, dir: Dir, hour: usize) -> bool
        requires { hour < 24 }
        ensures { result ≡ turned_bit dir self.now.hours 24 hour }
    {
        has_bit(&[self.hours as u64], turn(dir, 24, hour))
    }

    #[tactic(auto, unfolding(crate::specs::Times::meets_minute, crate::specs::Times::both))]
    pub(crate) fn has_minute(&self, dir: Dir, minute: usize) -> bool
        requires { minute < 1440 }
        ensures { result ≡ meets_minute self.now dir minute }
    {
        self.has_hour(dir, minute / 60) && has_bit(&[self.minutes], turn(dir, 60, minute % 60))
    }

    // The first minute of the day, of 1440, whose hour and minute are met, in the hour of one.
    fn first_in_hour(&self, dir: Dir, from: usize) -> Option<usize>
        requires { from < 1440 }
        ensures { IsLeastIn (meets_minute self.now dir) from (from / 60 * 60 + 60) result }
    {
        if !self.has_hour(dir, from / 60) {
            return None;
        }
        match first_bit(dir, self.minutes, 60, from % 60) {
            Some(minute) => Some(from / 60 * 60 + minute),
            None => None,
        }
    }

    // The same in an hour or a later one.
    fn first_from_hour(&self, dir: Dir, from: usize) -> Option<usize>
        requires { from ≤ 24 }
        ensures { IsLeastIn (meets_minute self.now dir) (from * 60) 1440 result }
    {
        match first_bit(dir, self.hours as u64, 24, from) {
            Some(hour) => match first_bit(dir, self.minutes, 60, 0) {
                Some(minute) => Some(hour * 60 + minute),
                None => None,
            },
            None => None,
        }
    }

    // The same from a minute on, counted from the day's end where the direction is backwards.
    fn first_minute(&self, dir: Dir, from: usize) -> Option<usize>
        requires { from ≤ 1440 }
        ensures { IsLeastIn (meets_minute self.now dir) from 1440 result }
    {
        if from >= 1440 {
            return None;
        }
        match self.first_in_hour(dir, from) {
            Some(minute) => Some(minute),
            None => self.first_from_hour(dir, from / 60 + 1),
        }
    }

    // The first second of the day, of 86,400, that is met, in the minute of one.
    fn first_in_minute(&self, dir: Dir, from: usize) -> Option<usize>
        requires { from < 86_400 }
        ensures { IsLeastIn (meets_second self.now dir) from (from / 60 * 60 + 60) result }
    {
        if !self.has_minute(dir, from / 60) {
            return None;
        }
        match first_bit(dir, self.seconds, 60, from % 60) {
            Some(second) => Some(from / 60 * 60 + second),
            None => None,
        }
    }

    // The same in a minute or a later one.
    fn first_from_minute(&self, dir: Dir, from: usize) -> Option<usize>
        requires { from ≤ 1440 }
        ensures { IsLeastIn (meets_second self.now dir) (from * 60) 86_400 result }
    {
        match self.first_minute(dir, from) {
            Some(minute) => match first_bit(dir, self.seconds, 60, 0) {
                Some(second) => Some(minute * 60 + second),
                None => None,
            },
            None => None,
        }
    }

    /// The first second of the day from one on that is met, counted from the day's end where the
    /// direction is backwards.
    pub(crate) fn first_second(&self, dir: Dir, from: usize) -> Option<usize>
        requires { from < 86_400 }
        ensures { IsLeastIn (meets_second self.now dir) from 86_400 result }
    {
        match self.first_in_minute(dir, from) {
            Some(second) => Some(second),
            None => self.first_from_minute(dir, from / 60 + 1),
        }
    }
}
