// The theorems of typing, each in the contract of a function that does nothing: a call of it hands the fact to a caller's
// proof.

ghost use Rattle.type_rules.specs.Theorems.{TypedHasNoFault, FaultsAreUnique, TypedOrAtFault, CellsAreRight, PlacesAreTyped, ByCase, UnitsByCase, FunctionsByCase, NumbersDiffer, ScopesStay};

/// A unit that is typed has no fault.
pub fn typed_has_no_fault()
    ensures { TypedHasNoFault }
{}

/// A unit has at most one first fault.
pub fn faults_are_unique()
    ensures { FaultsAreUnique }
{}

/// A unit whose nodes have different numbers is typed by a table, or has a first fault.
pub fn typed_or_at_fault()
    ensures { TypedOrAtFault }
{}

/// What a table that types a unit has at the number of a node: the type that the node has at its place, and the variable
/// behind it.
pub fn cells_are_right()
    ensures { CellsAreRight }
{}

/// In a unit without a fault, each node has a type at its place.
pub fn places_are_typed()
    ensures { PlacesAreTyped }
{}

/// What is written out for each kind of node is what is defined: the scopes behind a node, its type or first fault, and the
/// table.
pub fn by_case()
    ensures { ByCase }
{}

/// The visit of a unit's trees one after the other, as it is written out for each kind: the table that it fills types the unit,
/// or its fault is the first.
pub fn units_by_case()
    ensures { UnitsByCase }
{}

/// The functions that a unit defines, and the tags of its structures and unions, under the scopes as they are written out for
/// each kind.
pub fn functions_by_case()
    ensures { FunctionsByCase }
{}

/// Trees that stand over tokens, one after the other, have nodes with different numbers.
pub fn numbers_differ()
    ensures { NumbersDiffer }
{}

/// Behind a node, and behind nodes one after the other, the names and tags of before are still in force, in the same scope.
pub fn scopes_stay()
    ensures { ScopesStay }
{}
