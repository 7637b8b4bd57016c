//! Phases, one behind the other, of which the first that fails decides: definitions and laws, and
//! no code.
#![tactic(auto)]
