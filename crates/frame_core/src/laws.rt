ghost use Rattle.frame_core.specs.Laws.{ConstantSetsRepeat, DivisorsAreGreatest, JoinedPeriods, MultiplesAreLeast, NeverIsForEver, OnePeriodTells, RulesComeRound, SetsRepeatApart, SetsRepeatTogether, WindowsKeep, WindowsLie};

/// What one period says of the whole line, and how frames are made from frames. It does nothing.
///
/// Where a set repeats and nothing differs from `p` up to the end of the first period past `p`,
/// nothing ever does. Two sets together repeat with the joined frame, what is made of one set's
/// membership alone repeats with its frame, and a set that stays the same from `hi` upwards and
/// from `lo` downwards repeats with any period.
pub fn frame_laws()
    ensures keeps { OnePeriodTells }
    ensures join { SetsRepeatTogether }
    ensures period { JoinedPeriods }
    ensures apart { SetsRepeatApart }
    ensures constant { ConstantSetsRepeat }
{}

/// A window lies in the calendar range and ends past `p`; what stays up to its end stays for ever,
/// and so does what a search answered with it. It does nothing.
pub fn window_laws()
    ensures lie { WindowsLie }
    ensures keep { WindowsKeep }
    ensures for_ever { NeverIsForEver }
{}

/// The greatest common divisor and the least common multiple are what their names say, and after a
/// rule's period both the calendar and the interval come round. It does nothing.
pub fn period_laws()
    ensures divisor { DivisorsAreGreatest }
    ensures multiple { MultiplesAreLeast }
    ensures rule { RulesComeRound }
{}
