//! Trees lowered for searches: their rules made ready, their lists in order, their counts settled;
//! what they mean, and by which frame they repeat.
#![tactic(auto)]

mod faults;
mod frames;
mod laws;
mod leaves;
mod moments;
mod nodes;
mod places;

pub use faults::{PlanFault, SETTLE_LIMIT};
pub use frames::node_frame;
pub use laws::{lawful_laws, settle_laws};
pub use leaves::Leaf;
pub use moments::Moments;
pub use nodes::{Node, node_count};
pub use places::{earlier, later, one_after, one_before};
