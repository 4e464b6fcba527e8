// The theorems of this crate, each in the contract of a function that does nothing: a call of it hands the fact to a caller's proof.
// They speak of all checkers and programs that are named by numbers; the lemmas in `proofs/` hold of any model.

ghost use Rattle.known_search.specs.KnownEnough.Theorems.{FoundObjectsAreEnough, FoundObjectsReport};
ghost use Rattle.known_search.specs.KnownEnough.Example.{CopyIsFound};

/// Where the links describe a program, whatever is closed under the rules of the search is enough to be followed.
pub fn found_objects_are_enough()
    ensures { FoundObjectsAreEnough }
{}

/// So the least set of path edges of such objects alone shows exactly the reports that some path from some root takes.
pub fn found_objects_report()
    ensures { FoundObjectsReport }
{}

/// There are such links: those of a function that copies a pointer and frees it twice, where the copy alone is followed.
pub fn copy_is_found()
    ensures { CopyIsFound }
{}
