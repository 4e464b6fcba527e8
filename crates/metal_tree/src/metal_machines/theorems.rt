// The theorem about rules, in the contract of a function that does nothing: a call of it hands the fact to a caller's proof.

ghost use Rattle.metal_tree.specs.MetalMachines.Theorems.{RulesAreFound};

/// Rules that are numbered one after the other are found by their places.
pub fn rules_are_found()
    ensures { RulesAreFound }
{}
