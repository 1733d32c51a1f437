//! The exact rules of the flag shelf and the proof that they keep a shelf's meaning.
#![tactic(auto)]

pub mod parts;
