ghost use Rattle.std.specs.Prelude.{◌≡◌, ◌≤◌, ◌*◌};
ghost use Rattle.frame_core.specs.Periods.{greatest_common, in_width, least_common, period_of_rule};

use moment_core::{G, WIDTH};

/// After how many seconds a rule repeats that takes every `interval`th of its units, where 400
/// years have so many `units`: `G * interval / gcd(interval, units)`. None exactly where that is
/// above `WIDTH`.
pub fn rule_period(units: u64, interval: u64) -> Option<u64>
    requires units { 1 ≤ units }
    requires interval { 1 ≤ interval }
    ensures { result ≡ in_width (period_of_rule units interval) }
{
    product_in_width(G, interval / gcd(interval, units))
}

/// The least common multiple of two periods. None exactly where it is above `WIDTH`.
pub(crate) fn least_common(a: u64, b: u64) -> Option<u64>
    requires a { 1 ≤ a }
    requires b { 1 ≤ b }
    ensures { result ≡ in_width (least_common a b) }
{
    product_in_width(a / gcd(a, b), b)
}

/// The product. None exactly where it is above `WIDTH`.
fn product_in_width(a: u64, b: u64) -> Option<u64>
    ensures { result ≡ in_width (a * b) }
{
    match a.checked_mul(b) {
        Some(product) if product <= WIDTH => Some(product),
        _ => None,
    }
}

/// The greatest common divisor (Euclid).
fn gcd(a: u64, b: u64) -> u64
    ensures { result ≡ greatest_common a b }
{
    let mut x = a;
    let mut y = b;
    while y != 0 {
        let rest = x % y;
        x = y;
        y = rest;
    }
    x
}
