//! What holds of every shelf. The functions do nothing; their contracts are the laws, for every maker's shelf and
//! every kind of reading.
ghost use Rattle.shelf.specs.Laws.{IdealLinks, Patient};

use crate::shelf::Shelf;

/// Over every run of calls from a fresh shelf: a link that is held shows what its channel held when its take came into
/// force; it is live exactly if no put stored on the channel since; a put on it answers "put" and a check "live"
/// exactly then; a channel that went 7, 8, 7 has broken its links; and nobody else's call changes what a party's
/// links show.
pub fn links_are_ideal<S: Shelf>(_shelf: &S)
    ensures { IdealLinks S.rules }
{}

/// Of any (patience + 1) turns that a party spends in one operation, with no other party's put coming into force on a
/// live link of the operation's channel, one ends it.
pub fn turns_end_operations<S: Shelf>(_shelf: &S)
    ensures { Patient S.rules }
{}
