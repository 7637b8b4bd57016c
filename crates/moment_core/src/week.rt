ghost use Rattle.std.specs.Prelude.{◌≡◌, ◌↔◌, IsSome, IfSome};
ghost use Rattle.std.specs.Int.{IsInRange};

use std::marker::Model;

/// A day of the week by its number, from 1 for Monday to 7 for Sunday (ISO 8601).
///
/// Contracts see it as that number.
#[derive(Clone, Copy, Debug, PartialEq, Eq)]
pub struct Weekday(u8);

impl Model for Weekday {
    ghost use Rattle.std.specs.Prelude.{ℕ};
    ghost use Rattle.std.specs.Int.{IsInRange};

    ghost Value = { ℕ };

    ghost view = { λ day. day.0 };

    ghost invariant = { λ day. IsInRange 1 7 day.0 };

    ghost inverse = { λ n. record { 0 = n } };
}

impl Weekday {
    /// The weekday with the number, or None where the number isn't 1 to 7.
    pub fn new(n: u8) -> Option<Weekday>
        ensures some { IsSome result ↔ IsInRange 1 7 n }
        ensures value { IfSome result (λ day. day ≡ n) }
    {
        if 1 <= n && n <= 7 {
            Some(Weekday(n))
        } else {
            None
        }
    }

    /// The number, from 1 for Monday to 7 for Sunday.
    pub fn number(&self) -> u8
        ensures value { result ≡ self.now }
        ensures within { IsInRange 1 7 result }
    {
        self.0
    }
}
