// The theorems about places and numbers, each in the contract of a function that does nothing: a call of it hands the fact to
// a caller's proof.

ghost use Rattle.c_grammar.specs.CPlaces.Theorems.{
  NumbersRise,
  PlacesAreFirst,
};

/// The numbers of the nodes of a tree, or of trees in a row, go up in the order in which the nodes end, so no two are equal.
pub fn numbers_rise()
    ensures { NumbersRise }
{}

/// The place that a node keeps is that of its first token.
pub fn places_are_first()
    ensures { PlacesAreFirst }
{}
