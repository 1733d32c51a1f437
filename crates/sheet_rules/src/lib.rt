//! The format of run sheets and the law of sheets, on which the reader rests.
#![tactic(auto)]

ghost use Rattle.sheet_rules.specs.Sheets.{OneMeaning};

/// Does nothing; promises that no sheet can be read in two ways.
#[tactic(auto, using(crate::proofs::Meaning::one_meaning))]
pub fn sheets_say_one_thing()
    ensures { OneMeaning }
{}
