// The theorems of this crate, each in the contract of a function that does nothing: a call of it hands the fact to a caller's proof.
// They speak of all checkers and programs that are named by numbers; the lemmas in `proofs/` hold of any model.

ghost use Rattle.masked_paths.specs.MaskedTabulation.Theorems.{MaskedReportsAreThoseOfPaths, MaskedEdgesAreRealised};

/// The least set of path edges under a mask shows exactly the reports that some path from some root takes, where it is enough to
/// follow the objects of the mask.
pub fn masked_reports_are_those_of_paths()
    ensures { MaskedReportsAreThoseOfPaths }
{}

/// Where the objects of the mask are closed, the least set of path edges has exactly the tuples of these that paths realise.
pub fn masked_edges_are_realised()
    ensures { MaskedEdgesAreRealised }
{}
