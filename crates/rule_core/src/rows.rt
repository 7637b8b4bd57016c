ghost use Rattle.std.specs.Prelude.{◌≡◌, true};
ghost use Rattle.rule_core.specs.FieldRows as fields;
ghost use Rattle.rule_core.specs.IcalRows as icals;

/// What `has_field` says of rules of each frequency, at moments that another calendar picked.
#[tactic(auto, unfolding(moment_core::specs::Calendar::is_leap, moment_core::specs::Calendar::days_of_years, moment_core::specs::Calendar::days_of_months, moment_core::specs::Calendar::first_day, moment_core::specs::Calendar::day_number, moment_core::specs::Calendar::last_begun, moment_core::specs::Calendar::year_of, moment_core::specs::Calendar::days_into_year, moment_core::specs::Calendar::month_of, moment_core::specs::Calendar::day_of_month, moment_core::specs::Calendar::weekday_of, moment_core::specs::Calendar::week_start, moment_core::specs::Calendar::week_one, moment_core::specs::Calendar::week_year_of, moment_core::specs::Calendar::week_of, moment_core::specs::Calendar::weeks_in_year, moment_core::specs::Calendar::month_number, moment_core::specs::Calendar::week_number, moment_core::specs::Units::unit_of, crate::specs::Values::is_listed, crate::specs::FieldMembers::has_field, crate::specs::FieldMembers::meets, crate::specs::FieldMembers::meets_day, crate::specs::FieldMembers::meets_time))]
pub fn field_rows()
    ensures dates_of_year { fields.dates_of_year ≡ true }
    ensures days_of_year { fields.days_of_year ≡ true }
    ensures days_of_month { fields.days_of_month ≡ true }
    ensures weeks_of_year { fields.weeks_of_year ≡ true }
    ensures weekdays { fields.weekdays ≡ true }
    ensures weeks_apart { fields.weeks_apart ≡ true }
    ensures times_of_day { fields.times_of_day ≡ true }
    ensures intervals { fields.intervals ≡ true }
    ensures starts { fields.starts ≡ true }
    ensures before_year_0 { fields.before_year_0 ≡ true }
{}

/// What `has_ical` says of rules of each frequency, at moments that another calendar picked.
#[tactic(auto, unfolding(moment_core::specs::Calendar::is_leap, moment_core::specs::Calendar::days_of_years, moment_core::specs::Calendar::days_of_months, moment_core::specs::Calendar::first_day, moment_core::specs::Calendar::day_number, moment_core::specs::Calendar::last_begun, moment_core::specs::Calendar::year_of, moment_core::specs::Calendar::days_into_year, moment_core::specs::Calendar::month_of, moment_core::specs::Calendar::day_of_month, moment_core::specs::Calendar::weekday_of, moment_core::specs::Calendar::week_start, moment_core::specs::Calendar::week_one, moment_core::specs::Calendar::week_year_of, moment_core::specs::Calendar::week_of, moment_core::specs::Calendar::weeks_in_year, moment_core::specs::Calendar::month_number, moment_core::specs::Calendar::week_number, moment_core::specs::Units::unit_of, moment_core::specs::Ranks::count_below, moment_core::specs::Ranks::count_to, crate::specs::Values::is_listed, crate::specs::IcalMembers::has_ical, crate::specs::IcalMembers::has_uncounted, crate::specs::IcalMembers::filled, crate::specs::IcalMembers::is_day_item, crate::specs::IcalMembers::meets_by_date, crate::specs::IcalMembers::meets_by_day, crate::specs::IcalMembers::meets_by_time, crate::specs::IcalMembers::meets_part, crate::specs::IcalMembers::meets_parts, crate::specs::IcalMembers::meets_set_pos))]
pub fn ical_rows()
    ensures friday_13 { icals.friday_13 ≡ true }
    ensures weekly_sets { icals.weekly_sets ≡ true }
    ensures days_of_month { icals.days_of_month ≡ true }
    ensures dates_of_year { icals.dates_of_year ≡ true }
    ensures weekdays_of_year { icals.weekdays_of_year ≡ true }
    ensures weeks_of_year { icals.weeks_of_year ≡ true }
    ensures days_and_times { icals.days_and_times ≡ true }
    ensures untils { icals.untils ≡ true }
    ensures before_year_0 { icals.before_year_0 ≡ true }
    ensures counts { icals.counts ≡ true }
{}
