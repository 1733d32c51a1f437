//! A past of a hub in which operations finish, so that the law of runs is seen to speak of something; and calls that a
//! hub refuses.
#![tactic(auto)]

ghost use Rattle.hub_example.specs.Past.{ExamplePast};
ghost use Rattle.hub_example.specs.Refusals.{Refuses};

/// Does nothing; promises that in the example two amendments and a picture finish with these answers, the picture after
/// it began again.
#[tactic(auto, using(crate::proofs::Example::example_past))]
pub fn operations_finish()
    ensures { ExamplePast }
{}

/// Does nothing; promises that these calls are refused with these numbers.
pub fn calls_are_refused()
    ensures { Refuses }
{}
