// The theorem about lists of path edges, in the contract of a function that does nothing: a call of it hands the fact to a caller's proof.

ghost use Rattle.path_edges.specs.Theorems.{EmptyEdgesMeet, LeastEdgesReport};

/// A list of path edges that has what follows by the rules of tabulation, as far as one knows that it does, and nothing else, shows exactly
/// the reports of the program.
pub fn least_edges_report()
    ensures { LeastEdgesReport }
{}

/// A list of path edges that has what follows where no object is followed meets the global states with which paths come to the first places
/// of blocks: a path's global state depends on no object.
pub fn empty_edges_meet()
    ensures { EmptyEdgesMeet }
{}
