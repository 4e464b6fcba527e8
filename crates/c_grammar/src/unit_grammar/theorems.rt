// The theorems of the grammar, each in the contract of a function that does nothing: a call of it hands the fact to a
// caller's proof.

ghost use Rattle.c_grammar.specs.UnitGrammar.Theorems.{
  ReadingIsSound,
  ReadingIsComplete,
  ChunksAreRead,
  ParsesAreUnique,
};

/// What the plain reader finds is a tree of the grammar, of at most the height that it was given, and its tokens are those
/// that were taken.
pub fn reading_is_sound()
    ensures { ReadingIsSound }
{}

/// Each tree of the grammar is found, up to the height that the reader was given, where what follows doesn't go on with it.
pub fn reading_is_complete()
    ensures { ReadingIsComplete }
{}

/// The tree that is read of a chunk is exactly its parse.
pub fn chunks_are_read()
    ensures { ChunksAreRead }
{}

/// A chunk has at most one parse.
pub fn parses_are_unique()
    ensures { ParsesAreUnique }
{}
