//! The law of runs. The functions do nothing; their contracts are the laws, of every past of every hub: its making on a
//! fresh shelf of any maker, for any kind of reading, and then amendments, pictures, turns, releases and looks, accepted
//! or refused, in any mix.
ghost use Rattle.hub_rules.specs.Law.{OperationsOrdered, TurnsGetOn, HoldingsStay};

use shelf::shelf::Shelf;

/// The finished operations, and perhaps some that still run, have an order in which the ideal board gives each its
/// answer; one that ended before another was ordered stands before it; and at the end the board holds what the shelf's
/// channels hold.
#[tactic(auto, using(crate::proofs::Runs::operations_ordered))]
pub fn operations_have_an_order<S: Shelf>(_shelf: &S)
    ensures { OperationsOrdered S.Item.Reading.kind S.rules }
{}

/// Of any 1 + 16 × N × (w + 1) successive turns of busy parties, w being the patience, one ends an operation or brings
/// an amendment into force. Other calls may lie between these turns.
#[tactic(auto, using(crate::proofs::Runs::turns_get_on))]
pub fn turns_get_on<S: Shelf>(_shelf: &S)
    ensures { TurnsGetOn S.Item.Reading.kind S.rules }
{}

/// What a party holds reads the same until its next accepted order or its release.
#[tactic(auto, using(crate::proofs::Holdings::holdings_stay))]
pub fn holdings_stay<S: Shelf>(_shelf: &S)
    ensures { HoldingsStay S.Item.Reading.kind S.rules }
{}
