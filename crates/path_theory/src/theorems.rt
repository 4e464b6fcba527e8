// The theorems of the theory, each in the contract of a function that does nothing: a call of it hands the fact to a caller's proof.
// They speak of all checkers and programs that are named by numbers; the lemmas in `proofs/` hold of any model.

ghost use Rattle.path_theory.specs.Theorems.{
  PrefixesArePaths,
  ObjectsAreIndependent,
  KnownObjectsAreFollowed,
  PathEdgesAreRealised,
  ReportsAreThoseOfPaths,
  LengthsAreThoseOfPaths,
  LeastLogReports,
  LeastLogIsRealised,
  SameTracesReportTheSame,
  SameTracesRealiseTheSame,
  SameMarksReportTheSame,
  ExactTableReports,
  OwnFramesStandForCalledOnes,
  ContextsAreApart,
  UnchangedFramesStay,
};

/// Every prefix of a path is a path.
pub fn prefixes_are_paths()
    ensures { PrefixesArePaths }
{}

/// The state of an object after the run of a frame depends on the state of its origin at the frame's entry alone, so
/// one object can be followed without the others.
pub fn objects_are_independent()
    ensures { ObjectsAreIndependent }
{}

/// On every path the objects with known states are among those that are followed, and so are the objects of its reports.
pub fn known_objects_are_followed()
    ensures { KnownObjectsAreFollowed }
{}

/// The path edges of tabulation are exactly the tuples that paths realise, of the objects that are followed.
pub fn path_edges_are_realised()
    ensures { PathEdgesAreRealised }
{}

/// The reports of the path edges are exactly those that some path from some root takes.
pub fn reports_are_those_of_paths()
    ensures { ReportsAreThoseOfPaths }
{}

/// A report is found in exactly the numbers of events, calls and returns in which a path takes it. So the least number is
/// that of a shortest path.
pub fn lengths_are_those_of_paths()
    ensures { LengthsAreThoseOfPaths }
{}

/// Entries at the heads of blocks, each a path edge, from which nothing else follows show exactly the reports of all paths.
/// Here the kind of frame is part of an entry's context.
pub fn saturated_entries_are_exact()
    ensures { ExactTableReports }
{}

/// A called frame of a root that begins with the first global state and nothing known comes to nothing that the root's own
/// frame doesn't come to, so it needs no entries of its own.
pub fn own_frames_stand_for_called_ones()
    ensures { OwnFramesStandForCalledOnes }
{}

/// A log that is the least set of entries at the heads of blocks, kept by function and entry tuple alone, has exactly the
/// realised tuples and shows exactly the reports of all paths.
pub fn least_log_is_exact()
    ensures reports { LeastLogReports }
    ensures entries { LeastLogIsRealised }
{}

/// Programs with the same roots and traces have the same reports and realise the same, as the semantics of a program and
/// a flow graph that was built from it.
pub fn same_traces_are_one_program()
    ensures reports { SameTracesReportTheSame }
    ensures realised { SameTracesRealiseTheSame }
{}

/// Bodies with the same traces, with a mark at each call, have the same reports under each checker, whichever calls it
/// follows: a flow graph is built once for all of them.
pub fn same_marks_are_one_program()
    ensures { SameMarksReportTheSame }
{}

/// The path edges of a context are a matter of its frame alone, once some path begins it; and what a frame comes to from its
/// entry tuple stays where its function and all that it calls are unchanged.
pub fn unchanged_frames_stay()
    ensures contexts { ContextsAreApart }
    ensures frames { UnchangedFramesStay }
{}
