//! Frames: from where on a set of positions repeats, both ways, and after how long.
#![tactic(auto)]

mod frames;
mod laws;
mod periods;

pub use frames::{Frame, join, window};
pub use laws::{frame_laws, period_laws, window_laws};
pub use periods::rule_period;
