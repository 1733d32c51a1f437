//! The flag shelf: each operation comes into force and ends in one turn.
#![tactic(auto)]

mod calls;
pub mod flag;
pub mod flag_shelf;
mod making;
