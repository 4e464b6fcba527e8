// The theorems of this crate, each in the contract of a function that does nothing: a call of it hands the fact to a caller's proof.
// They speak of all checkers and programs that are named by numbers; the lemmas in `proofs/` hold of any model.

ghost use Rattle.masked_paths.specs.Theorems.{
  MatchedObjectsAreEnough,
  MatchedOverBlocksAreEnough,
  ClosedObjectsAreEnough,
  EnoughHasSameStates,
  EnoughHasSameReports,
  EnoughHasSameLengths,
  ClosedRealisesTheSame,
  MaskedEdgesReport,
  MaskedEdgesReportInSteps,
  MaskedLogReports,
  MaskedLogIsRealised,
  FlowsAreWithin,
};
ghost use Rattle.masked_paths.specs.Example.{EnoughNotClosed};

/// What can be known, by rules that match the return of a call with the call, is enough: nothing that a path knows or reports is
/// of another object.
pub fn matched_objects_are_enough()
    ensures traces { MatchedObjectsAreEnough }
    ensures blocks { MatchedOverBlocksAreEnough }
{}

/// A family that is closed in both directions, as the relevant objects are, is enough.
pub fn closed_objects_are_enough()
    ensures { ClosedObjectsAreEnough }
{}

/// Where a family is enough, the checker that follows it alone has on each path the same state, and so the same reports, in the
/// same numbers of events, calls and returns.
pub fn masks_change_no_report()
    ensures states { EnoughHasSameStates }
    ensures reports { EnoughHasSameReports }
    ensures lengths { EnoughHasSameLengths }
{}

/// Where a family is closed, paths realise exactly the same tuples of its objects.
pub fn closed_realises_the_same()
    ensures { ClosedRealisesTheSame }
{}

/// The path edges under a mask show exactly the reports of all paths without it, in exactly the numbers of steps in which these
/// take them.
pub fn masked_edges_report()
    ensures reports { MaskedEdgesReport }
    ensures lengths { MaskedEdgesReportInSteps }
{}

/// A log that is the least set of entries under a mask shows exactly the reports of all paths without it, where the family is
/// enough, and has exactly the realised tuples of its objects, where it is closed.
pub fn masked_log_is_exact()
    ensures reports { MaskedLogReports }
    ensures entries { MaskedLogIsRealised }
{}

/// What flows under a mask from what is followed is what flows with origins within what is followed: an engine's steps can be
/// stated over the checker's own events and call sites.
pub fn flows_are_within()
    ensures { FlowsAreWithin }
{}

/// A family can be enough without being closed: a pointer that is freed twice, where nothing is known of the one from which it
/// was copied. Such a family needs the mask: without it the report is lost.
pub fn enough_need_not_be_closed()
    ensures { EnoughNotClosed }
{}
