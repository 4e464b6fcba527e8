// The laws of checkers, each in the contract of a function that does nothing: a call of it hands the fact to a caller's proof.

ghost use Rattle.path_model.specs.CheckerModel.Theorems.{
  OneObjectAtATime,
  OtherEventsIgnoreFrames,
  EndsAreQuiet,
  HandedBackObjectsBecomeTheirs,
};

/// The state of an object behind a move, an entry or a return is that of one object before, or unknown.
pub fn one_object_at_a_time()
    ensures { OneObjectAtATime }
{}

/// An event that ends no function does the same in a root's own frame and in a called one.
pub fn other_events_ignore_frames()
    ensures { OtherEventsIgnoreFrames }
{}

/// The end of a called function leaves the global state, and gives no report that the end of a root wouldn't.
pub fn ends_are_quiet()
    ensures { EndsAreQuiet }
{}

/// What is computed of a return is what is handed back: the object of the callee that becomes one of the caller through the first actual through
/// which any does, and else, of a global object, its own.
pub fn handed_back_objects_become_theirs()
    ensures { HandedBackObjectsBecomeTheirs }
{}
