//! The exact rules of the block shelf and the proofs about them: that they keep a shelf's meaning, that every block
//! has one place, and that no block which a link holds is used again.
#![tactic(auto)]

ghost use Rattle.block_rules.specs.Worked.{WorkedRuns};

pub mod parts;

/// Does nothing; promises that the rules give the worked runs.
pub fn worked_runs_stand()
    ensures { WorkedRuns }
{}
