//! The exact rules of the hub over any shelf, and the law of runs.
#![tactic(auto)]

pub mod laws;
pub mod parts;
