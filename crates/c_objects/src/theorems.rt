// The laws of objects, each in the contract of a function that does nothing: a call of it hands the fact to a caller's proof.

ghost use Rattle.c_objects.specs.Theorems.{
  TreesHaveObjects,
  DepthCutsOff,
  StepsAreJoined,
  BeginsWithIsRest,
  RestIsRebased,
  RebaseGivesObjects,
  AppendGivesObjects,
  ReplacedObjectsBecomeTheirs,
};

/// The object of a tree has at most as many steps as the depth, and what it is the address of doesn't end in `*`.
pub fn trees_have_objects()
    ensures { TreesHaveObjects }
{}

/// The object of a tree at a depth is that at a greater depth, if it has at most so many steps.
pub fn depth_cuts_off()
    ensures { DepthCutsOff }
{}

/// Steps behind steps are the steps of both.
pub fn steps_are_joined()
    ensures { StepsAreJoined }
{}

/// What begins with a path is that path with some steps behind it.
pub fn begins_with_is_rest()
    ensures { BeginsWithIsRest }
{}

/// What begins with a path has what stands behind it put behind the new object.
pub fn rest_is_rebased()
    ensures { RestIsRebased }
{}

/// What is put in the place of a path gives an object at the depth.
pub fn rebase_gives_objects()
    ensures { RebaseGivesObjects }
{}

/// Steps behind an object give an object at the depth.
pub fn append_gives_objects()
    ensures { AppendGivesObjects }
{}

/// The object that becomes another one, where an object is put in the place of a path, is the only one that does.
pub fn replaced_objects_become_theirs()
    ensures { ReplacedObjectsBecomeTheirs }
{}
