//! The room of the tests of moments, spans, frames, bytes and their texts.
//!
//! It holds no library: each module tests the public functions of the crate that it is named after,
//! which is thus proved once and without tests. What contracts leave open is tested here: whether
//! their definitions say what another calendar says, the texts, and that calls which need memory or
//! a stream succeed.
#![tactic(auto)]

#[cfg(test)]
mod civil_core_tests;
#[cfg(test)]
mod frame_core_tests;
#[cfg(test)]
mod moment_core_tests;
#[cfg(test)]
mod moment_text_tests;
#[cfg(test)]
mod outside_core_tests;
#[cfg(test)]
mod rows;
#[cfg(test)]
mod span_core_tests;
#[cfg(test)]
mod token_text_tests;
