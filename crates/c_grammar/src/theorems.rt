// The theorems of the grammar, each in the contract of a function that does nothing: a call of it hands the fact to a
// caller's proof.

ghost use Rattle.c_grammar.specs.Theorems.{
  ParsesAreRead,
  ParsesAreUnique,
  ReadingIsComplete,
  ReadingIsSound,
};

/// What the plain reader finds is a tree of the grammar, of at most the height that it was given, and its tokens are those
/// that were taken.
pub fn reading_is_sound()
    ensures { ReadingIsSound }
{}

/// Each tree of the grammar that isn't higher than what the plain reader was given is found in front of its tokens, where
/// what follows them doesn't go on with it.
pub fn reading_is_complete()
    ensures { ReadingIsComplete }
{}

/// The plain reader finds a tree of all symbols just where it is their parse.
pub fn parses_are_read()
    ensures { ParsesAreRead }
{}

/// No symbols have two parses.
pub fn parses_are_unique()
    ensures { ParsesAreUnique }
{}
