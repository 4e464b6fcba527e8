// The theorems of traces, each in the contract of a function that does nothing: a call of it hands the fact to a caller's
// proof.

ghost use Rattle.flow_graph.specs.CPaths.Theorems.{
  BuiltGraphsAreSound,
  BuiltGraphsHaveTheTraces,
  BuiltGraphsStandInTheText,
  FinishedListsAreAll,
  GraphsHaveTheTraces,
  JoinedBlocksKeepTheTraces,
  ListedAreTraces,
  RedirectedEndsKeepTheTraces,
};

/// Each beginning of a list that is found by making steps is a trace of the function.
pub fn listed_are_traces()
    ensures { ListedAreTraces }
{}

/// Where no more steps can be made, the beginnings of the lists that are found are all traces of the function.
pub fn finished_lists_are_all()
    ensures { FinishedListsAreAll }
{}

/// A graph that has the blocks of a body has exactly its traces.
pub fn graphs_have_the_traces()
    ensures { GraphsHaveTheTraces }
{}

/// The graph that the plain builder makes of a function has exactly its traces.
pub fn built_graphs_have_the_traces()
    ensures { BuiltGraphsHaveTheTraces }
{}

/// The graph that the plain builder makes names only its own blocks, and each exit has a block of its own.
pub fn built_graphs_are_sound()
    ensures { BuiltGraphsAreSound }
{}

/// What stands in the graph that the plain builder makes stands in the function's text.
pub fn built_graphs_stand_in_the_text()
    ensures { BuiltGraphsStandInTheText }
{}

/// A block that leads to one other may have that block's events and end as its own.
pub fn joined_blocks_keep_the_traces()
    ensures { JoinedBlocksKeepTheTraces }
{}

/// An end, and the way into the function, may lead to where control comes from its target over blocks that only lead on.
pub fn redirected_ends_keep_the_traces()
    ensures { RedirectedEndsKeepTheTraces }
{}
