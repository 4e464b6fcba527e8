// The theorems of this crate, each in the contract of a function that does nothing: a call of it hands the fact to a caller's proof.
// They speak of all checkers that are named by numbers; the lemmas in `proofs/` hold of any model.

ghost use Rattle.masked_paths.specs.StrictFlows.Theorems.{StrictFlowsAskLists, StrictOrigins};

/// What flows under a strict mask is what flows with origins that ask both tests, as lists of followed objects give them.
pub fn strict_flows_ask_lists()
    ensures { StrictFlowsAskLists }
{}

/// An object has its state from one that is followed, or it begins: where it has none, and where it would have it from one that isn't
/// followed.
pub fn strict_origins()
    ensures { StrictOrigins }
{}
