//! The line of moments and positions that every set of this workspace lies on.
//!
//! A moment is a whole number of seconds from 1970-01-01T00:00:00, without leap seconds. A position
//! is a whole number too: `2t` is the moment `t`, and `2t + 1` is the open second between `t` and
//! `t + 1`.
#![tactic(auto)]

mod calendar;
mod clocks;
mod counter;
mod joining;
mod laws;
mod line;
mod units;
mod week;

pub use calendar::calendar_laws;
pub use counter::Steps;
pub use joining::{Op, UnaryOp};
pub use laws::line_laws;
pub use line::{
    Clock, Dir, G, HIGH, LOW, Moment, Pos, REACH, Stamp, Step, WIDTH, Window, floor, in_range,
    in_work, of,
};
pub use units::Unit;
pub use week::Weekday;
