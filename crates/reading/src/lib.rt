//! Kinds of reading: what a channel of the hub can hold.
#![tactic(auto)]

pub mod capture;
pub mod capture_kind;
pub mod kind;
pub mod tally;
