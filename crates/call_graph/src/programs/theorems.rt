// The theorem about the functions of units, in the contract of a function that does nothing: a call of it hands the fact to a
// caller's proof.

ghost use Rattle.call_graph.specs.OfPrograms.Theorems.{UnitsAreListed};

/// The functions that typed units keep are those that their trees define.
pub fn units_are_listed()
    ensures { UnitsAreListed }
{}
