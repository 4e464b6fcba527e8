// The theorems about the graphs of a program, each in the contract of a function that does nothing: a call of it hands the fact to a caller's
// proof.

ghost use Rattle.path_model.specs.CheckerGraphs.Theorems.{GraphsHaveTheTraces, GraphsReportTheSame, RelevantObjectsAreClosedInGraphs, FollowedObjectsAreClosedInGraphs, FunctionsStandApart, FunctionsHaveOneNumber, FunctionsHaveTheirGraphs};

/// A program whose functions are cut into blocks has the traces of the program under each checker, and no others.
pub fn graphs_have_the_traces()
    ensures { GraphsHaveTheTraces }
{}

/// Its paths take exactly the reports that the program's paths take.
pub fn graphs_report_the_same()
    ensures { GraphsReportTheSame }
{}

/// Relevant objects may be followed alone in it.
pub fn relevant_objects_are_closed_in_graphs()
    ensures { RelevantObjectsAreClosedInGraphs }
{}

/// So may the followed ones.
pub fn followed_objects_are_closed_in_graphs()
    ensures { FollowedObjectsAreClosedInGraphs }
{}

/// No two functions of the units of a program stand at one place.
pub fn functions_stand_apart()
    ensures { FunctionsStandApart }
{}

/// So functions with different numbers differ.
pub fn functions_have_one_number()
    ensures { FunctionsHaveOneNumber }
{}

/// And the graph and the definition that are found for a function are those with its number.
pub fn functions_have_their_graphs()
    ensures { FunctionsHaveTheirGraphs }
{}
