ghost use Rattle.rule_core.specs.Laws.{FieldIntervalFits, FieldKeysFit, FieldRulesRepeat, FieldValuesFit, IcalIntervalFits, IcalPartsFit, IcalRulesRepeat, IcalValuesFit, UntilsAreOfYears, WeekStartFits};

/// What a rule keeps to that `check` takes, and that rules repeat with the calendar.
pub fn rule_laws()
    ensures field_values { FieldValuesFit }
    ensures field_keys { FieldKeysFit }
    ensures field_interval { FieldIntervalFits }
    ensures week_start { WeekStartFits }
    ensures field_repeats { FieldRulesRepeat }
    ensures ical_values { IcalValuesFit }
    ensures until { UntilsAreOfYears }
    ensures ical_parts { IcalPartsFit }
    ensures ical_interval { IcalIntervalFits }
    ensures ical_repeats { IcalRulesRepeat }
{}
