//! The ideal board, and the proof that the operations of a hub have an order in which the board gives their answers.
#![tactic(auto)]
