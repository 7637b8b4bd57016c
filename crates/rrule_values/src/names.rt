ghost use Rattle.std.specs.Prelude.{◌≡◌};
ghost use Rattle.std.specs.Int.{IsInRange};
ghost use Rattle.rrule_values.specs.Names.{day_name, day_named, freq_name, freq_named};

use moment_core::Weekday;
use rule_core::Freq;

const FREQUENCIES: [Freq; 7] = [
    Freq::Yearly,
    Freq::Monthly,
    Freq::Weekly,
    Freq::Daily,
    Freq::Hourly,
    Freq::Minutely,
    Freq::Secondly,
];

/// The name of a frequency, as `YEARLY`.
pub fn freq_name(freq: Freq) -> &'static [u8]
    ensures { result.now ≡ freq_name freq }
{
    match freq {
        Freq::Yearly => b"YEARLY",
        Freq::Monthly => b"MONTHLY",
        Freq::Weekly => b"WEEKLY",
        Freq::Daily => b"DAILY",
        Freq::Hourly => b"HOURLY",
        Freq::Minutely => b"MINUTELY",
        Freq::Secondly => b"SECONDLY",
    }
}

/// The frequency with this name, in capital letters.
#[tactic(auto, unfolding(crate::specs::Names::freq_named))]
pub fn freq_named(name: &[u8]) -> Option<Freq>
    ensures { result ≡ freq_named name.now }
{
    FREQUENCIES
        .iter()
        .copied()
        .find(|freq| name == freq_name(*freq))
}

/// The name of a weekday, from `MO` to `SU`.
pub fn day_name(day: Weekday) -> &'static [u8]
    ensures name { result.now ≡ day_name day }
    ensures weekday { IsInRange 1 7 day }
{
    match day.number() {
        1 => b"MO",
        2 => b"TU",
        3 => b"WE",
        4 => b"TH",
        5 => b"FR",
        6 => b"SA",
        _ => b"SU",
    }
}

/// The weekday with this name, in capital letters.
#[tactic(auto, unfolding(crate::specs::Names::day_named))]
pub fn day_named(name: &[u8]) -> Option<Weekday>
    ensures { result ≡ day_named name.now }
{
    match name {
        b"MO" => Weekday::new(1),
        b"TU" => Weekday::new(2),
        b"WE" => Weekday::new(3),
        b"TH" => Weekday::new(4),
        b"FR" => Weekday::new(5),
        b"SA" => Weekday::new(6),
        b"SU" => Weekday::new(7),
        _ => None,
    }
}
