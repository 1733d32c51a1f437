//! What a shelf means: load-linked, store-conditional and validate on channels, one step a turn.
#![tactic(auto)]

pub mod answer;
pub mod laws;
pub mod making;
pub mod numbering;
pub mod row;
pub mod shelf;
