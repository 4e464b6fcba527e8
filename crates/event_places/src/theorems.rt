// The theorems about where events stand, each in the contract of a function that does nothing.

ghost use Rattle.event_places.specs.Theorems.{BodiesEndAtTheirLastTokens, EndsAskOwnLocals, ErrorsAreReported, ErrorsOfFilesAreReported, EventsOfFilesStandAtTokens, EventsStandAtTokens, GlobalErrorsAreReported, KnownLocalsAreOwn, KnownLocalsOfFilesAreDeclared, TakenTreesAreSpelled, TextsOfFilesStand, TreesAreSpelledByTheirTokens};

/// Each event of a path stands at a token of its unit; the declaration of a variable, at which no rule is taken, where the tables of the
/// texts are those of their trees.
pub fn events_stand_at_tokens()
    ensures { EventsStandAtTokens }
{}

/// So a rule with an action that an object takes on a path has its report among those of the program: none is left out for want of a
/// token.
pub fn errors_are_reported()
    ensures { ErrorsAreReported }
{}

/// The same of a rule that the global state takes.
pub fn global_errors_are_reported()
    ensures { GlobalErrorsAreReported }
{}

/// The closing brace of a body is the last of its tokens.
pub fn bodies_end_at_their_last_tokens()
    ensures { BodiesEndAtTheirLastTokens }
{}

/// What a message spells of a tree are the tokens over which it stands, and these are the tokens of its line of the grammar.
pub fn trees_are_spelled_by_their_tokens()
    ensures { TreesAreSpelledByTheirTokens }
{}

/// Each tree that a hole takes at an event of a path is spelled by its own tokens, which stand in the event's unit.
pub fn taken_trees_are_spelled()
    ensures { TakenTreesAreSpelled }
{}

/// No frame knows another function's local: an object with a known state on a path is of no variable of a block, or of one for which an
/// identifier in the body of the last frame's function stands.
pub fn known_locals_are_own()
    ensures { KnownLocalsAreOwn }
{}

/// So each object that takes a rule at the end of a called function is one of a variable of a block that this function names.
pub fn ends_ask_own_locals()
    ensures { EndsAskOwnLocals }
{}

/// The texts of files stand in them, are of the grammar, have the tables of their trees, and types: so each fact above holds of the texts of
/// a request.
pub fn texts_of_files_stand()
    ensures { TextsOfFilesStand }
{}

/// On each path through the texts of files the last frame's function declares, in its body, each variable of a block of which an object has
/// a known state.
pub fn known_locals_of_files_are_declared()
    ensures { KnownLocalsOfFilesAreDeclared }
{}

/// On each path through the texts of files each event stands at a token.
pub fn events_of_files_stand_at_tokens()
    ensures { EventsOfFilesStandAtTokens }
{}

/// A rule with an action that is taken at the last event of a flat path through the texts of files is an error of the program, at the token
/// of that event: so it is in the list of all errors, which a run prints.
pub fn errors_of_files_are_reported()
    ensures { ErrorsOfFilesAreReported }
{}
