//! Field rules made ready to be searched.
#![tactic(auto)]

mod days;
mod laws;
mod leaf;
mod lowering;
mod times;
mod values;

pub use laws::{field_laws, field_leaf_laws};
pub use leaf::FieldLeaf;
pub use lowering::lower_field;
