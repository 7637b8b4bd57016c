//! Tests of the crates that make sets ready, search them and walk through them: what they answer of
//! given sets, where their contracts speak of any. Nothing else stands here, so none of them
//! is proved a second time for its tests. The sets are given as texts.
#![tactic(auto)]

#[cfg(test)]
mod given;
#[cfg(test)]
mod kinds;
#[cfg(test)]
mod leaves;
#[cfg(test)]
mod neighbours;
#[cfg(test)]
mod plans;
#[cfg(test)]
mod sweeps;
#[cfg(test)]
mod walks;
