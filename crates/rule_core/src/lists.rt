ghost use Rattle.std.specs.Prelude.{◌≡◌};
ghost use Rattle.rule_core.specs.Values.{is_given};

use moment_core::Weekday;
use std::marker::Model;

/// The listed values of a field; none means that it isn't given. Contracts see their list.
#[derive(Debug, Drop)]
pub struct Signed {
    values: Vec<i64>,
}

impl Model for Signed {
    ghost use Rattle.std.specs.Prelude.{List, ℤ};

    ghost Value = { List ℤ };

    ghost view = { λ s. s.values.items };
}

impl Signed {
    /// The values of the vector, in its order.
    pub fn of(values: Vec<i64>) -> Signed
        ensures { result ≡ values.items }
    {
        Signed { values }
    }

    /// The values, in their order.
    pub fn items(&self) -> &[i64]
        ensures { result.now ≡ self.now }
    {
        self.values.as_slice()
    }

    /// Whether there is a value: a field without one isn't given.
    pub fn is_given(&self) -> bool
        ensures { result ≡ is_given self.now }
    {
        !self.values.is_empty()
    }
}

/// A weekday by itself, where `nth` is 0, or the nth such day, counted from the end where `nth` is
/// below 0.
#[derive(Clone, Copy, Debug, PartialEq, Eq)]
pub struct DayItem {
    pub nth: i64,
    pub day: Weekday,
}

/// The listed weekdays; none means that they aren't given. Contracts see their list.
#[derive(Debug, Drop)]
pub struct DayItems {
    values: Vec<DayItem>,
}

impl Model for DayItems {
    ghost use Rattle.std.specs.Prelude.{List};
    ghost use Rattle.rule_core.specs.declared.lists.DayItem.{DayItem};

    ghost Value = { List DayItem };

    ghost view = { λ s. s.values.items };
}

impl DayItems {
    /// The items of the vector, in its order.
    pub fn of(values: Vec<DayItem>) -> DayItems
        ensures { result ≡ values.items }
    {
        DayItems { values }
    }

    /// The items, in their order.
    pub fn items(&self) -> &[DayItem]
        ensures { result.now ≡ self.now }
    {
        self.values.as_slice()
    }

    /// Whether there is a value: a field without one isn't given.
    pub fn is_given(&self) -> bool
        ensures { result ≡ is_given self.now }
    {
        !self.values.is_empty()
    }
}
