// The theorems about checkers, each in the contract of a function that does nothing: a call of it hands the fact to a
// caller's proof.

ghost use Rattle.metal_grammar.specs.Theorems.{
  FirstFaultsAreRead,
  FirstFaultsAreUnique,
  MachineOrFault,
  MachinesAreKept,
  MachinesAreLimited,
  MachinesAreRead,
  MachinesAreUnique,
  NeverBoth,
  SyntaxFaultsAreRead,
  TextsAreKept,
  TextsAreKnown,
  TextsAreRead,
  TextsAreTheirTokens,
  TextsAreUnique,
};

/// Symbols are the text of clauses just where they are the tokens of these and the clauses are well-formed.
pub fn texts_are_their_tokens()
    ensures { TextsAreTheirTokens }
{}

/// The plain reader finds all clauses of symbols just where they are the text of these clauses.
pub fn texts_are_read()
    ensures { TextsAreRead }
{}

/// The plain reader stops at a clause just where this is the first one without a parse.
pub fn syntax_faults_are_read()
    ensures { SyntaxFaultsAreRead }
{}

/// Where the contents of all strings are names, so are the texts of all callouts.
pub fn texts_are_known()
    ensures { TextsAreKnown }
{}

/// Where the contents of all strings are names, the plain reader accepts symbols as a machine just where they have no fault and
/// this is their machine.
pub fn machines_are_read()
    ensures { MachinesAreRead }
{}

/// The plain reader refuses symbols for a fault just where it is their first one.
pub fn first_faults_are_read()
    ensures { FirstFaultsAreRead }
{}

/// No symbols are two texts.
pub fn texts_are_unique()
    ensures { TextsAreUnique }
{}

/// No symbols are two machines.
pub fn machines_are_unique()
    ensures { MachinesAreUnique }
{}

/// No symbols have two first faults.
pub fn first_faults_are_unique()
    ensures { FirstFaultsAreUnique }
{}

/// All symbols whose strings have contents that are names are a machine or have a first fault.
pub fn machine_or_fault()
    ensures { MachineOrFault }
{}

/// No symbols are a machine and have a fault.
pub fn never_both()
    ensures { NeverBoth }
{}

/// Each machine has at most 8 state variables, which are the first of at most 16 holes, and at most 1000 rules, which are
/// numbered from 1 in their order.
pub fn machines_are_limited()
    ensures { MachinesAreLimited }
{}

/// A text without a fault is a machine that keeps its numbers in range, and whose rules are sound.
pub fn texts_are_kept()
    ensures { TextsAreKept }
{}

/// Each machine keeps its numbers in range: of holes, variables and states, and the rows of its callouts. Its rules are sound: each
/// is about one variable at most, splits as it may, goes from a state that it may leave to one of the same kind, and binds what
/// it asks of.
pub fn machines_are_kept()
    ensures { MachinesAreKept }
{}
