ghost use Rattle.moment_core.specs.CalendarLaws.{YearsHoldDays, YearsFollow, MonthsHoldDays, MonthsFollow, DatesNameDays, TimesNameMoments, WeekdaysFollow, WeeksHoldDays, WeeksFollow, FirstWeeksHaveFourDays, WeekYearsHoldDays, WeekYearsFollow, LaterDaysAreOfLaterUnits, DatesRepeat, WeeksRepeat, TimesRepeat, UnitsRepeat, LaterMomentsAreOfLaterUnits, UnitsAreShort, RangesAreOfYears};

/// The laws that the words of the calendar keep, on all whole numbers (proleptic Gregorian
/// calendar; for weeks that begin on Monday, the weeks of ISO 8601). It does nothing.
pub fn calendar_laws()
    ensures years_hold_days { YearsHoldDays }
    ensures years_follow { YearsFollow }
    ensures months_hold_days { MonthsHoldDays }
    ensures months_follow { MonthsFollow }
    ensures dates_name_days { DatesNameDays }
    ensures times_name_moments { TimesNameMoments }
    ensures weekdays_follow { WeekdaysFollow }
    ensures weeks_hold_days { WeeksHoldDays }
    ensures weeks_follow { WeeksFollow }
    ensures first_weeks_have_four_days { FirstWeeksHaveFourDays }
    ensures week_years_hold_days { WeekYearsHoldDays }
    ensures week_years_follow { WeekYearsFollow }
    ensures later_days_are_of_later_units { LaterDaysAreOfLaterUnits }
    ensures dates_repeat { DatesRepeat }
    ensures weeks_repeat { WeeksRepeat }
    ensures times_repeat { TimesRepeat }
    ensures units_repeat { UnitsRepeat }
    ensures later_moments_are_of_later_units { LaterMomentsAreOfLaterUnits }
    ensures units_are_short { UnitsAreShort }
    ensures ranges_are_of_years { RangesAreOfYears }
{}
