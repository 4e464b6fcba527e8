// The theorems about the steps to relevant objects, each in the contract of a function that does nothing: a call of it hands the fact to a
// caller's proof.

ghost use Rattle.relevant.specs.RelevantSteps.Theorems.{ObjectsFoundInStepsAreRelevant, RelevantObjectsAreOfFunctions};

/// What is found in steps over the flow graphs of a program, one function and object at a time, are exactly its relevant objects.
pub fn objects_found_in_steps_are_relevant()
    ensures { ObjectsFoundInStepsAreRelevant }
{}

/// And nothing else than a function of the program has any.
pub fn relevant_objects_are_of_functions()
    ensures { RelevantObjectsAreOfFunctions }
{}
