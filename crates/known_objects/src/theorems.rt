// The theorem about what is found, in the contract of a function that does nothing: a call of it hands the fact to a caller's proof.

ghost use Rattle.known_objects.specs.Theorems.{KnownListsAreEnough};

/// It is enough to follow the objects of the lists, where at each event of a path rules bind only what is listed as bound.
pub fn known_lists_are_enough()
    ensures { KnownListsAreEnough }
{}
