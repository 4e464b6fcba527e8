// The theorems on rows of events, each in the contract of a function that does nothing: a call of it hands the fact to a caller's proof.

ghost use Rattle.numbered_program.specs.NumberedEvents.Theorems.{BlocksStandForEvents, RowsStandForEvents};

/// The row of an event stands for it, in frames of either kind: by what its move touches, by the states to which its choices lead, and by the
/// reports that it notes.
pub fn rows_stand_for_events()
    ensures { RowsStandForEvents }
{}

/// The rows of a block's events, one by one, stand for them: what is at their end, and what is reported on the way.
pub fn blocks_stand_for_events()
    ensures { BlocksStandForEvents }
{}
