ghost use Rattle.std.specs.Prelude.{◌≡◌};
ghost use Rattle.moment_core.specs.Clocks.{clock_of_stamp, is_absolute, one_clock};

use crate::line::{Clock, Stamp};

impl Clock {
    /// The one clock of both, any giving way, or None where two decided clocks differ.
    pub fn common(self, other: Clock) -> Option<Clock>
        ensures { result ≡ one_clock self other }
    {
        match (self, other) {
            (Clock::Any, clock) | (clock, Clock::Any) => Some(clock),
            (Clock::Floating, Clock::Floating) => Some(Clock::Floating),
            (Clock::Absolute, Clock::Absolute) => Some(Clock::Absolute),
            _ => None,
        }
    }

    /// Whether moments on this clock are written with a `Z`.
    pub fn is_absolute(self) -> bool
        ensures { result ≡ is_absolute self }
    {
        matches!(self, Clock::Absolute)
    }
}

impl Stamp {
    /// The clock on which the moment was written: absolute with a `Z`, floating without.
    pub fn clock(self) -> Clock
        ensures { result ≡ clock_of_stamp self }
    {
        if self.absolute {
            Clock::Absolute
        } else {
            Clock::Floating
        }
    }
}
