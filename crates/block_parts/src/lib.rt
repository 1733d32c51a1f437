//! The parts of a block shelf: lists of blocks, and what a party has of them and the steps that it takes.
#![tactic(auto)]

pub mod block_list;
mod lists;
pub mod seat;
mod seats;
