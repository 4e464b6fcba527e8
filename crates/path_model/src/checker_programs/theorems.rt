// The theorems about calls, roots and relevant objects of a program, each in the contract of a function that does nothing: a call of it hands the fact to a caller's proof.

ghost use Rattle.path_model.specs.CheckerPrograms.Theorems.{CallsHandBackWhatBecomes, RelevantObjectsAreClosed, RelevantObjectsAreObjects, FollowedObjectsAreClosed, FollowedObjectsAreRelevant, RootsAreUncalledOrRemain};

/// Behind each call of a program an object of the caller has the state of the object of the callee that becomes it, by its actual in the place of
/// the formal, or of a global object that none becomes its own there; and every other has the state that it had at the call.
pub fn calls_hand_back_what_becomes()
    ensures { CallsHandBackWhatBecomes }
{}

/// A root is a function that no followed call leads to; and, as long as functions remain that no root reaches, the first of them.
pub fn roots_are_uncalled_or_remain()
    ensures { RootsAreUncalledOrRemain }
{}

/// Whatever is left out where relevant objects alone are followed is unknown on every path, and takes no rule with a report.
pub fn relevant_objects_are_closed()
    ensures { RelevantObjectsAreClosed }
{}

/// Relevant objects have at most as many steps as the depth, and none is the address of what ends in `*`.
pub fn relevant_objects_are_objects()
    ensures { RelevantObjectsAreObjects }
{}

/// Whatever is left out where the objects alone are followed to which rules may lead from a global state is unknown on every path too, and
/// takes no rule with a report.
pub fn followed_objects_are_closed()
    ensures { FollowedObjectsAreClosed }
{}

/// And each of these is a relevant object.
pub fn followed_objects_are_relevant()
    ensures { FollowedObjectsAreRelevant }
{}
