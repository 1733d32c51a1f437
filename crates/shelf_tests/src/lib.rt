//! Tests of the shelves on examples.
#![tactic(auto)]

#[cfg(test)]
mod blocks;
#[cfg(test)]
mod flags;
#[cfg(test)]
mod scenarios;
