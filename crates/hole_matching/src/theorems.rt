// The theorems of matching, each in the contract of a function that does nothing: a call of it hands the fact to a caller's
// proof.

ghost use Rattle.hole_matching.specs.Theorems.{
  PatternsAreMatched,
  AlternativesAreMatched,
  BindingsAreUnique,
  ComparedLevelByLevel,
  EqualTreesMatch,
  CopiesAreCompared,
  SameTreesAreEqual,
};

/// A pattern is matched with a subject by exactly the binding of what its holes take where it stands over it.
pub fn patterns_are_matched()
    ensures { PatternsAreMatched }
{}

/// An alternative is matched by exactly the binding with which it matches.
pub fn alternatives_are_matched()
    ensures { AlternativesAreMatched }
{}

/// An alternative matches a subject with at most one binding.
pub fn bindings_are_unique()
    ensures { BindingsAreUnique }
{}

/// What two trees are compared by is the head and the parts that they are matched by.
pub fn compared_level_by_level()
    ensures { ComparedLevelByLevel }
{}

/// A pattern without holes stands over exactly the subjects that are compared by it.
pub fn equal_trees_match()
    ensures { EqualTreesMatch }
{}

/// An expression without type names that is written as a pattern is what the same expression in a tree is compared by.
pub fn copies_are_compared()
    ensures { CopiesAreCompared }
{}

/// Trees without type names that are the same by themselves are equal in a match.
pub fn same_trees_are_equal()
    ensures { SameTreesAreEqual }
{}
