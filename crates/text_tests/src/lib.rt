//! Tests of the crates that read texts and words and that write lines: what they say of given
//! texts, where their contracts speak of any. Nothing else stands here, so none of those crates is
//! proved a second time for its tests.
#![tactic(auto)]

#[cfg(test)]
mod lexing;
#[cfg(test)]
mod reports;
#[cfg(test)]
mod texts;
#[cfg(test)]
mod words;
