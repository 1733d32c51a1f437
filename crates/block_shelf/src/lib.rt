//! The block shelf: Maged Michael's lock-free load-linked, store-conditional and validate, with guards (hazard
//! pointers) and blocks that are used again.
#![tactic(auto)]

pub mod block;
pub mod block_shelf;
mod making;
mod places;
mod reads;
mod turns;
