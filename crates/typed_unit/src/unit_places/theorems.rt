// The theorems about places, each in the contract of a function that does nothing: a call of it hands the fact to a caller's
// proof.

ghost use Rattle.c_tree.specs.Views.{nodes_of};
ghost use Rattle.typed_unit.specs.UnitPlaces.Functions.{AreDefinedIn};
ghost use Rattle.typed_unit.specs.UnitPlaces.Theorems.{TreesStand, NodesStand, ItemsStand, NextStands, PartsStand, PartsStandByCase, FunctionsStand, BodiesStand, ExpressionsAreTyped, DeclaratorsAreTyped, FactsAgree};

use crate::typed_unit::TypedUnit;

/// The trees of a unit stand in it, one after the other, the first at the start of the file.
pub fn trees_stand()
    ensures { TreesStand }
{}

/// Of nodes that stand one after the other, each stands behind those before it.
pub fn nodes_stand()
    ensures { NodesStand }
{}

/// Of trees that stand one after the other, the one at an index stands behind those before it.
pub fn items_stand()
    ensures { ItemsStand }
{}

/// A list of trees that is gone over from its beginning: the next one stands, and so do those behind it.
pub fn next_stands()
    ensures { NextStands }
{}

/// Where a node stands each of its parts stands, behind those before it.
pub fn parts_stand()
    ensures { PartsStand }
{}

/// Where a node stands its parts stand, as it is written out for each kind.
pub fn parts_stand_by_case()
    ensures { PartsStandByCase }
{}

/// Each function of a unit is what a definition says that stands in it.
pub fn functions_stand()
    ensures { FunctionsStand }
{}

/// Each function that a typed unit keeps is what a definition says that stands in it.
pub fn typed_functions_stand(unit: &TypedUnit)
    ensures { ∥ AreDefinedIn (nodes_of unit.now.unit.chunks) unit.now.functions.items ∥₁ }
{}

/// The body of each function of a unit stands in it as one.
pub fn bodies_stand()
    ensures { BodiesStand }
{}

/// An expression or a type name has a type where it stands.
pub fn expressions_are_typed()
    ensures { ExpressionsAreTyped }
{}

/// A declarator that declares a name has a type where it stands.
pub fn declarators_are_typed()
    ensures { DeclaratorsAreTyped }
{}

/// Two tables that type a unit have the same type and variable for each node that has a type.
pub fn facts_agree()
    ensures { FactsAgree }
{}
