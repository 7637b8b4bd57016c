//! Where bytes come from and where they go: sources, sinks and their counts of faults.
//!
//! A source may tell contracts the bytes that it has left, and a sink those that it took. An object
//! in memory does; one over a real stream does not, since nothing is proved of what a stream holds.
//! Each counts its faults: a read or a write answers `Failed` only where the count rose in that
//! call. The last value of a count is 2^64 - 1, and there it stays: a count that stands there
//! counts as risen.
#![tactic(auto)]

mod memory;
mod plan;
mod reads;
mod standard;
mod writes;

pub use memory::{MemSink, MemSource, SureSink, SureSource};
pub use reads::{Got, Source};
pub use standard::{StdSink, StdSource};
pub use writes::{Put, Sink};
