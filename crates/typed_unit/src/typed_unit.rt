//! Translation units with the types of their expressions.

ghost use Rattle.std.specs.Prelude.{◌≡◌, None, Some, cond, get_or, map};
ghost use Rattle.std.specs.Option.{option_map};
ghost use Rattle.c_tree.specs.TokenPlaces.{StandInFile};
ghost use Rattle.c_tree.specs.Views.{node_of, nodes_of};
ghost use Rattle.type_rules.specs.Definition.{at, number_of, type_of, var_at};
ghost use Rattle.type_rules.specs.Functions.{functions_of, structs_of, tag_of};
ghost use Rattle.type_rules.specs.Parts.{flat};
ghost use Rattle.type_rules.specs.Roles.{Role};
ghost use Rattle.type_rules.specs.Scopes.{Scopes};
ghost use Rattle.type_rules.specs.Types.{Void};
ghost use Rattle.type_rules.specs.Unit.{IsTyping};
ghost use Rattle.typed_unit.specs.Functions.{function_of};
ghost use Rattle.typed_unit.specs.Places.{StandOver, StandsAt, IsTypedAt, is_identifier};
ghost use Rattle.typed_unit.specs.Tables.{table_of, type_in, var_in};
ghost use Rattle.type_values.specs.Types.{ctype_of};
ghost use Rattle.type_values.specs.Vars.{cvar_of};

use crate::functions::TypedFunction;
use crate::table::Table;
use c_tree::{Kind, Primary, Tree};
use type_rules::{cells_are_right, places_are_typed};
use type_values::{Ty, Unit, Var};

/// A translation unit without a fault of typing: the types of its expressions, the variables behind its names, and the tags of
/// its structures and unions (ISO 9899:1990, 6.1.2).
#[derive(Drop)]
pub struct TypedUnit<'a> {
    pub unit: Unit<'a>,

    /// The functions that it defines, in the order of the text.
    pub functions: Vec<TypedFunction<'a>>,

    /// What is kept of its nodes, by their numbers.
    pub table: Table<'a>,

    // The tag of each structure and union, if it has one, by its number.
    tags: Vec<Option<u32>>,

    // What stands for the type of a node that has none.
    no_type: Ty<'a>,

    ghost typeless: { ∥ ctype_of no_type ≡ Void ∥₁ },
    ghost placed: { ∥ StandInFile unit.file unit.tokens.now ∥₁ },
    ghost standing: { ∥ StandOver (nodes_of unit.chunks) unit.tokens.now ∥₁ },
    ghost typing: { ∥ IsTyping (nodes_of unit.chunks) (table_of table) ∥₁ },
    ghost tagged: { tags.items ≡ structs_of (nodes_of unit.chunks) },
    ghost defined: { ∥ map function_of functions.items ≡ functions_of (nodes_of unit.chunks) ∥₁ },
}

// The tag at a number, if there is one.
fn tag_at(tags: &[Option<u32>], number: u32) -> Option<u32>
    ensures { result ≡ get_or tags.now number None }
{
    match tags.get(number as usize) {
        Some(tag) => *tag,
        None => None,
    }
}

// Whether a tree is a name by itself.
fn is_identifier(tree: &Tree) -> bool
    ensures { result ≡ is_identifier (node_of tree.now) }
{
    match &tree.kind {
        Kind::Primary(Primary::Ident { .. }) => true,
        _ => false,
    }
}

impl<'a> TypedUnit<'a> {
    /// A unit with the types and variables that this table has, the functions that it defines, and the tags of its structures
    /// and unions by their numbers.
    pub fn new(
        unit: Unit<'a>,
        functions: Vec<TypedFunction<'a>>,
        table: Table<'a>,
        tags: Vec<Option<u32>>,
    ) -> Self
        requires placed { StandInFile unit.file unit.tokens.now }
        requires standing { StandOver (nodes_of unit.chunks) unit.tokens.now }
        requires typing { IsTyping (nodes_of unit.chunks) (table_of table) }
        requires tagged { tags.items ≡ structs_of (nodes_of unit.chunks) }
        requires defined { map function_of functions.items ≡ functions_of (nodes_of unit.chunks) }
        ensures unit { result.unit ≡ unit.entry }
        ensures functions { result.functions ≡ functions.entry }
        ensures table { result.table ≡ table.entry }
    {
        TypedUnit {
            unit,
            functions,
            table,
            tags,
            no_type: Ty::Void,
        }
    }

    /// The type of an expression, of a type name or of a declared name of the unit, and `Void` for anything of which nothing is
    /// kept.
    pub fn ty(&self, tree: &Tree) -> &Ty<'a>
        ensures kept { ctype_of result.now ≡ type_in (at (number_of (flat (node_of tree.now))) (table_of self.now.table)) }
        ensures placed { (v : Scopes) (r : Role) → IsTypedAt (nodes_of self.now.unit.chunks) v r (node_of tree.now) → type_of v r (flat (node_of tree.now)) ≡ Some (ctype_of result.now) }
    {
        cells_are_right();
        places_are_typed();
        if let Some(cell) = self.table.cell(tree.id) {
            return &cell.ty;
        }
        &self.no_type
    }

    /// The variable that an identifier of the unit stands for. A function is none, and any other tree stands for none.
    pub fn var(&self, tree: &Tree) -> Option<Var>
        ensures kept { option_map cvar_of result ≡ cond (is_identifier (node_of tree.now)) (var_in (at (number_of (flat (node_of tree.now))) (table_of self.now.table))) None }
        ensures placed { (v : Scopes) (r : Role) → StandsAt (nodes_of self.now.unit.chunks) v r (node_of tree.now) → option_map cvar_of result ≡ cond (is_identifier (node_of tree.now)) (var_at v r (flat (node_of tree.now))) None }
    {
        cells_are_right();
        places_are_typed();
        if is_identifier(tree) {
            self.table.var(tree.id)
        } else {
            None
        }
    }

    /// The variable that a declarator of the unit declares, which declares a name. A function is none.
    pub fn declared(&self, tree: &Tree) -> Option<Var>
        ensures kept { option_map cvar_of result ≡ var_in (at (number_of (flat (node_of tree.now))) (table_of self.now.table)) }
        ensures placed { (v : Scopes) (r : Role) → IsTypedAt (nodes_of self.now.unit.chunks) v r (node_of tree.now) → option_map cvar_of result ≡ var_at v r (flat (node_of tree.now)) }
    {
        cells_are_right();
        places_are_typed();
        self.table.var(tree.id)
    }

    /// The tag of a structure or union. It is `None` exactly where that has none, and where the type is neither.
    pub fn tag(&self, ty: &Ty) -> Option<u32>
        ensures { result ≡ tag_of (nodes_of self.now.unit.chunks) (ctype_of ty.now) }
    {
        match ty {
            Ty::Struct(number) => tag_at(&self.tags, *number),
            Ty::Union(number) => tag_at(&self.tags, *number),
            _ => None,
        }
    }
}
