ghost use Rattle.std.specs.Prelude.{◌≡◌, ◌↔◌, ℤ, true, false, ◌&&◌, ◌||◌, IfOk, IfSome, IsErr, IsNone, IsTrue};
ghost use Rattle.span_core.specs.Bounds.{IsGiven, IsOneStretch, IsSpan, ends_after, lies_between, reaches};

use crate::bounds::Bound;
use moment_core::Pos;
use std::marker::Model;

/// No position lies between two bounds.
#[derive(Clone, Copy, Debug, PartialEq, Eq)]
pub struct Empty;

/// The positions between two bounds, at least one.
///
/// Contracts see it as its two bounds, kept as they were given.
#[derive(Clone, Copy, Debug, PartialEq, Eq)]
pub struct Span {
    low: Bound,
    high: Bound,
}

impl Model for Span {
    ghost use Rattle.span_core.specs.declared.bounds.Bound.{Bound};

    ghost Value = { Bound × Bound };

    ghost use Rattle.span_core.specs.Bounds.{IsSpan};

    ghost view = { λ s. (s.low, s.high) };

    ghost invariant = { λ s. IsSpan s.low s.high };

    ghost inverse = { λ v. record { low = v.0; high = v.1 } };
}

impl Span {
    /// The positions between the bounds, or `Empty` exactly where no position lies between them.
    pub fn new(low: Bound, high: Bound) -> Result<Span, Empty>
        requires low { IsGiven low }
        requires high { IsGiven high }
        ensures kept { IfOk result (λ span. span ≡ (low, high)) }
        ensures empty { IsErr result ↔ ((p : ℤ) → lies_between low high p ≡ false) }
    {
        if in_order(low, high) {
            Ok(Span { low, high })
        } else {
            Err(Empty)
        }
    }

    /// The bound below, as it was given.
    pub fn low(&self) -> Bound
        ensures value { result ≡ self.now.0 }
        ensures span { IsSpan self.now.0 self.now.1 }
    {
        self.low
    }

    /// The bound above, as it was given.
    pub fn high(&self) -> Bound
        ensures value { result ≡ self.now.1 }
        ensures span { IsSpan self.now.0 self.now.1 }
    {
        self.high
    }

    /// Whether the position lies between the bounds.
    pub fn holds(&self, p: Pos) -> bool
        ensures { result ≡ lies_between self.now.0 self.now.1 p.0 }
    {
        reaches(self.low, p) && ends_after(self.high, p)
    }

    /// The positions of both, or None exactly where there are none.
    pub fn meet(&self, other: &Span) -> Option<Span>
        ensures some { IfSome result (λ span. (p : ℤ) → lies_between span.0 span.1 p
            ≡ (lies_between self.now.0 self.now.1 p && lies_between other.now.0 other.now.1 p)) }
        ensures none { IsNone result ↔ ((p : ℤ) →
            (lies_between self.now.0 self.now.1 p
            && lies_between other.now.0 other.now.1 p) ≡ false) }
    {
        let low = later_low(self.low, other.low);
        let high = earlier_high(self.high, other.high);
        Span::new(low, high).ok()
    }

    /// Whether the positions of both together are one stretch.
    pub fn touch(&self, other: &Span) -> bool
        ensures { IsTrue result ↔ IsOneStretch (λ p.
            lies_between self.now.0 self.now.1 p || lies_between other.now.0 other.now.1 p) }
    {
        let apart_above = are_apart(self.high, other.low);
        let apart_below = are_apart(other.high, self.low);
        !apart_above && !apart_below
    }
}

/// Whether the position is not below the low bound.
fn reaches(low: Bound, p: Pos) -> bool
    requires { IsGiven low }
    ensures { result ≡ reaches low p.0 }
{
    low.first_position().is_none_or(|first| first <= p)
}

/// Whether the position is not above the high bound.
fn ends_after(high: Bound, p: Pos) -> bool
    requires { IsGiven high }
    ensures { result ≡ ends_after high p.0 }
{
    high.last_position().is_none_or(|last| p <= last)
}

/// Of two low bounds the one that begins later.
fn later_low(a: Bound, b: Bound) -> Bound
    requires a { IsGiven a }
    requires b { IsGiven b }
    ensures given { IsGiven result }
    ensures both { (p : ℤ) → reaches result p ≡ (reaches a p && reaches b p) }
{
    match (a.first_position(), b.first_position()) {
        (Some(first), Some(other)) => if first < other { b } else { a },
        (Some(_), None) => a,
        (None, _) => b,
    }
}

/// Of two high bounds the one that ends earlier.
fn earlier_high(a: Bound, b: Bound) -> Bound
    requires a { IsGiven a }
    requires b { IsGiven b }
    ensures given { IsGiven result }
    ensures both { (p : ℤ) → ends_after result p ≡ (ends_after a p && ends_after b p) }
{
    match (a.last_position(), b.last_position()) {
        (Some(last), Some(other)) => if last < other { a } else { b },
        (Some(_), None) => a,
        (None, _) => b,
    }
}

/// Whether some position lies between the bounds.
fn in_order(low: Bound, high: Bound) -> bool
    requires low { IsGiven low }
    requires high { IsGiven high }
    ensures some { result ≡ true → IsSpan low high }
    ensures none { result ≡ false → (p : ℤ) → lies_between low high p ≡ false }
{
    match (low.first_position(), high.last_position()) {
        (Some(first), Some(last)) => first <= last,
        _ => true,
    }
}

/// Whether some position lies above the high bound and below the low one.
fn are_apart(high: Bound, low: Bound) -> bool
    requires high { IsGiven high }
    requires low { IsGiven low }
    ensures { IsTrue result ↔ ((p : ℤ) × (ends_after high p ≡ false) × (reaches low p ≡ false)) }
{
    match (high.last_position(), low.first_position()) {
        (Some(last), Some(first)) => last.0 + 1 < first.0,
        _ => false,
    }
}
