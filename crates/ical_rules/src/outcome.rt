ghost use Rattle.std.specs.Prelude.{◌≡◌};

use moment_core::Moment;

/// Where a rule's COUNT ends it.
#[derive(Clone, Copy, Debug, PartialEq, Eq)]
pub enum Settled {
    /// The moment of the last member: the one with the COUNT's number.
    Last(Moment),
    /// There is no COUNT, or the working range ends before that member.
    Open,
}

/// So many candidates were passed without the last member, the last of them at the moment.
#[derive(Clone, Copy, Debug, PartialEq, Eq)]
pub struct Unsettled {
    pub passed: u64,
    pub at: Moment,
}

impl Settled {
    ghost use Rattle.ical_rules.specs.Starts.{last_in};

    /// The last member, where it is known.
    pub(crate) fn last(self) -> Option<Moment>
        ensures { result ≡ last_in self }
    {
        match self {
            Settled::Last(t) => Some(t),
            Settled::Open => None,
        }
    }
}
