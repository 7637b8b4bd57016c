//! The room of the tests of rules, their texts, sieves and recurrences.
//!
//! It holds no library: each module tests the public functions of the crate that it is named after,
//! which is thus proved once and without tests. What contracts leave open is tested here: whether
//! their definitions give the members that another calendar gives, which fault of a rule comes
//! first, the texts of rules, and that calls which need memory succeed.
#![tactic(auto)]

#[cfg(test)]
mod field_rules_tests;
#[cfg(test)]
mod ical_rules_tests;
#[cfg(test)]
mod neighbours;
#[cfg(test)]
mod rows;
#[cfg(test)]
mod rrule_text_tests;
#[cfg(test)]
mod rule_core_tests;
#[cfg(test)]
mod rules;
#[cfg(test)]
mod sieve_core_tests;
#[cfg(test)]
mod sieves;
#[cfg(test)]
mod stored_pair_tests;
