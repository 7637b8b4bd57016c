ghost use Rattle.std.specs.Prelude.{◌≡◌};
ghost use Rattle.rule_core.specs.Parts.{part_of};

/// The unit in which a rule repeats.
#[derive(Clone, Copy, Debug, PartialEq, Eq)]
pub enum Freq {
    Yearly,
    Monthly,
    Weekly,
    Daily,
    Hourly,
    Minutely,
    Secondly,
}

/// The keys of field rules, the parts of RFC 5545 rules, and the names of frequencies.
#[derive(Clone, Copy, Debug, PartialEq, Eq)]
pub enum Part {
    Yearly,
    Monthly,
    Weekly,
    Daily,
    Hourly,
    Minutely,
    Secondly,
    Months,
    Weeks,
    Days,
    Hours,
    Minutes,
    Seconds,
    Interval,
    Start,
    WeekStart,
    Freq,
    Dtstart,
    Until,
    Count,
    ByMonth,
    ByWeekNo,
    ByYearDay,
    ByMonthDay,
    ByDay,
    ByHour,
    ByMinute,
    BySecond,
    BySetPos,
    Wkst,
}

/// Why a rule is none.
#[derive(Clone, Copy, Debug, PartialEq, Eq)]
pub enum RuleFault {
    /// The two don't go together.
    BadMix(Part, Part),
    /// A value is out of its range.
    BadValue(Part),
    /// The interval is not 1 to 1,000,000,000.
    BadInterval,
}

impl Freq {
    /// The name of the frequency.
    pub fn part(self) -> Part
        ensures { result ≡ part_of self }
    {
        match self {
            Freq::Yearly => Part::Yearly,
            Freq::Monthly => Part::Monthly,
            Freq::Weekly => Part::Weekly,
            Freq::Daily => Part::Daily,
            Freq::Hourly => Part::Hourly,
            Freq::Minutely => Part::Minutely,
            Freq::Secondly => Part::Secondly,
        }
    }
}
