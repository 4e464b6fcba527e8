// The theorems on the global states that paths meet, each in the contract of a function that does nothing: a call of it hands the
// fact to a caller's proof. They speak of all checkers and programs that are named by numbers; the lemmas in `proofs/` hold of any
// model.

ghost use Rattle.masked_paths.specs.MetTheorems.{
  MetObjectsAreEnough,
  MetObjectsOfEdgesAreEnough,
  MasksKeepGlobals,
  BlocksCoverEvents,
  TracesCoverEvents,
  EdgesStandWherePathsCome,
  EdgesCoverEvents,
};
ghost use Rattle.masked_paths.specs.MetExample.{EnoughWhereMet};

/// What can be known is enough where only those rules bind and report whose global state some path has at the event: of any
/// family of states that has all of these, and of those that path edges without objects stand with.
pub fn met_objects_are_enough()
    ensures traces { MetObjectsAreEnough }
    ensures edges { MetObjectsOfEdgesAreEnough }
{}

/// No mask changes a global state: paths under it come to the same places with the same global states, whatever it follows.
pub fn masks_keep_global_states()
    ensures { MasksKeepGlobals }
{}

/// An engine that follows no object finds which global states paths meet: its path edges stand at the first places of blocks with
/// exactly those with which paths come there, and carried over the events of the blocks these are all that are met; in each program
/// with these traces, too.
pub fn edges_meet_global_states()
    ensures blocks { BlocksCoverEvents }
    ensures stand { EdgesStandWherePathsCome }
    ensures events { EdgesCoverEvents }
    ensures traces { TracesCoverEvents }
{}

/// Less is enough where met states count: in `q = x; kmalloc(n); p = x; free(p)` a rule from the state behind the call binds p and
/// never q, so p alone is enough; whoever takes the rule to act in any state has to follow q too.
pub fn met_objects_are_fewer()
    ensures { EnoughWhereMet }
{}
