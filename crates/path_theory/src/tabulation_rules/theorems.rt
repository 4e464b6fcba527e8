// The theorems of tabulation, each in the contract of a function that does nothing: a call of it hands the fact to a caller's proof.
// They speak of all checkers and programs that are named by numbers; the lemmas in `proofs/` hold of any model.

ghost use Rattle.path_theory.specs.TabulationRules.Theorems.{
  TabulatedEdgesAreRealised,
  TabulatedReportsAreThoseOfPaths,
};

/// A least list of path edges has exactly the tuples that paths realise at the heads of blocks, of the objects that are followed.
pub fn tabulated_edges_are_realised()
    ensures { TabulatedEdgesAreRealised }
{}

/// The reports that its edges show are exactly those that paths take.
pub fn tabulated_reports_are_those_of_paths()
    ensures { TabulatedReportsAreThoseOfPaths }
{}
