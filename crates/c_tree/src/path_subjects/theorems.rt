// The theorem about places, in the contract of a function that does nothing: a call of it hands the fact to a caller's proof.

ghost use Rattle.c_tree.specs.PathSubjects.Theorems.{TreesStandAtTheirFirstTokens};

/// Every tree but the initializer of a name stands at its first token.
pub fn trees_stand_at_their_first_tokens()
    ensures { TreesStandAtTheirFirstTokens }
{}
