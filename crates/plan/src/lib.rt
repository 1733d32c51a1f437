//! Plans of a hub, the shelves it can stand on, and every refusal with its number.
#![tactic(auto)]

pub mod check;
pub mod refusal;
