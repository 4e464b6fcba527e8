//! The objects of trees.

ghost use Rattle.std.specs.Prelude.{◌≡◌, ◌≤◌, ◌∷◌, [], cond, None};
ghost use Rattle.std.specs.Option.{option_map};
ghost use Rattle.c_objects.specs.Facts.{numbered_var, type_in, var_in};
ghost use Rattle.c_objects.specs.Objects.{Deref, Field, path};
ghost use Rattle.c_objects.specs.ObjectOf.{object_of, primary_object, operation_object, index_of, address_object, onward, onward_at};
ghost use Rattle.c_objects.specs.Paths.{addressed};
ghost use Rattle.c_tree.specs.Views.{node_of, primary_shape, operation_shape};
ghost use Rattle.type_rules.specs.Options.{◌>?◌};
ghost use Rattle.type_rules.specs.Types.{is_integer};
ghost use Rattle.type_values.specs.Vars.{cvar_of};
ghost use Rattle.objects.specs.Ways.Addresses.{primary_address, operation_address};
ghost use Rattle.objects.specs.Selectors.{selector_of, selectors_of};
ghost use Rattle.objects.specs.Units.{facts_in};
ghost use Rattle.typed_unit.specs.Places.{is_identifier};

use crate::object::{Object, variable};
use crate::paths::{addressed, append};
use crate::selector::Selector;
use c_tree::{Kind, Operation, Primary, TokenKind, Tree, UnaryOp};
use type_values::Var;
use typed_unit::TypedUnit;

// The variable behind a name.
#[tactic(auto, using(crate::proofs::Cells::cells))]
fn var_behind(unit: &TypedUnit, tree: &Tree) -> Option<Var>
    ensures { option_map cvar_of result ≡ cond (is_identifier (node_of tree.now)) (var_in (facts_in unit.now) (node_of tree.now)) None }
{
    unit.var(tree)
}

// Whether the type of a tree is one of integers.
#[tactic(auto, using(crate::proofs::Cells::cells))]
fn has_integer_type(unit: &TypedUnit, tree: &Tree) -> bool
    ensures { result ≡ is_integer (type_in (facts_in unit.now) (node_of tree.now)) }
{
    unit.ty(tree).is_integer()
}

// The step that an index is: under any parentheses and casts an integer constant, or a variable of integer type.
fn index_of(unit: &TypedUnit, tree: &Tree) -> Option<Selector>
    ensures { option_map selector_of result ≡ index_of (facts_in unit.now) (node_of tree.now) }
{
    match &tree.kind {
        Kind::Primary(Primary::Ident { .. }) => match var_behind(unit, tree) {
            Some(v) => {
                if has_integer_type(unit, tree) {
                    Some(Selector::AtVar(v))
                } else {
                    None
                }
            }
            None => None,
        },
        Kind::Primary(Primary::Constant { token }) => match token.kind {
            TokenKind::Int { value, .. } => Some(Selector::At(value)),
            _ => None,
        },
        Kind::Primary(Primary::Paren { inner }) => index_of(unit, inner),
        Kind::Operation(Operation::Cast { operand, .. }) => index_of(unit, operand),
        _ => None,
    }
}

// These steps behind an object.
fn onward(object: Option<Object>, steps: &[Selector], depth: u8) -> Option<Object>
    requires { depth ≤ 8 }
    ensures { result ≡ onward depth (selectors_of steps.now) object }
{
    match object {
        Some(object) => append(&object, steps, depth),
        None => None,
    }
}

// This step behind an object.
fn onward_at(object: Option<Object>, step: Option<Selector>, depth: u8) -> Option<Object>
    requires { depth ≤ 8 }
    ensures { result ≡ onward_at depth (option_map selector_of step) object }
{
    match step {
        Some(step) => onward(object, &[step], depth),
        None => None,
    }
}

// `*` and a member behind an object.
fn behind_arrow(object: Option<Object>, member: u32, depth: u8) -> Option<Object>
    requires { depth ≤ 8 }
    ensures { result ≡ onward depth (Deref ∷ Field member ∷ []) object }
{
    onward(object, &[Selector::Deref, Selector::Field(member)], depth)
}

// The path of the variable behind the name with a number.
#[tactic(auto, using(crate::proofs::Cells::cells))]
fn variable_behind(unit: &TypedUnit, number: u32) -> Option<Object>
    ensures { result ≡ option_map (λ v. path v []) (numbered_var (facts_in unit.now) number) }
{
    match unit.table.var(number) {
        Some(v) => Some(variable(v)),
        None => None,
    }
}

// The address of an object, if it has one.
fn address_of(object: Option<Object>) -> Option<Object>
    ensures { result ≡ (object >? addressed) }
{
    match object {
        Some(object) => addressed(&object),
        None => None,
    }
}

/// The object of a tree, with at most so many steps: the path by which an expression (ISO 9899:1990, 6.3) names what it stands
/// for. A tree that is no such expression has none.
#[cycle(objects)]
pub fn object_of(unit: &TypedUnit, tree: &Tree, depth: u8) -> Option<Object>
    requires { depth ≤ 8 }
    ensures { result ≡ object_of (facts_in unit.now) depth (node_of tree.now) }
{
    match &tree.kind {
        Kind::Primary(kind) => primary_object(unit, tree.id, kind, depth),
        Kind::Operation(kind) => operation_object(unit, kind, depth),
        _ => None,
    }
}

// A variable, and what stands in parentheses (6.3.1).
#[cycle(objects)]
fn primary_object(unit: &TypedUnit, number: u32, kind: &Primary, depth: u8) -> Option<Object>
    requires { depth ≤ 8 }
    ensures { result ≡ primary_object (facts_in unit.now) depth number (primary_shape kind.now) }
{
    match kind {
        Primary::Ident { .. } => variable_behind(unit, number),
        Primary::Paren { inner } => object_of(unit, inner, depth),
        _ => None,
    }
}

// What operators make (6.3.2 to 6.3.4).
#[cycle(objects)]
fn operation_object(unit: &TypedUnit, kind: &Operation, depth: u8) -> Option<Object>
    requires { depth ≤ 8 }
    ensures { result ≡ operation_object (facts_in unit.now) depth (operation_shape kind.now) }
{
    match kind {
        Operation::Index { array, index } => {
            onward_at(object_of(unit, array, depth), index_of(unit, index), depth)
        }
        Operation::Member { operand, member } => {
            onward_at(
                object_of(unit, operand, depth),
                Some(Selector::Field(member.name)),
                depth,
            )
        }
        Operation::Arrow { operand, member } => {
            behind_arrow(object_of(unit, operand, depth), member.name, depth)
        }
        Operation::Unary { op, operand } => match op {
            UnaryOp::Deref => onward_at(
                object_of(unit, operand, depth),
                Some(Selector::Deref),
                depth,
            ),
            UnaryOp::AddressOf => address_object(unit, operand, depth),
            _ => None,
        },
        Operation::Cast { operand, .. } => object_of(unit, operand, depth),
        _ => None,
    }
}

// The object of `&x`: that of `y` where `x` is `*y` under any parentheses, else the address of the path of `x`.
#[cycle(objects)]
fn address_object(unit: &TypedUnit, tree: &Tree, depth: u8) -> Option<Object>
    requires { depth ≤ 8 }
    ensures { result ≡ address_object (facts_in unit.now) depth (node_of tree.now) }
{
    match &tree.kind {
        Kind::Primary(kind) => primary_address(unit, tree.id, kind, depth),
        Kind::Operation(kind) => operation_address(unit, kind, depth),
        _ => None,
    }
}

// The same where `x` is a variable or stands in parentheses.
#[cycle(objects)]
fn primary_address(unit: &TypedUnit, number: u32, kind: &Primary, depth: u8) -> Option<Object>
    requires { depth ≤ 8 }
    ensures { result ≡ primary_address (facts_in unit.now) depth number (primary_shape kind.now) }
{
    match kind {
        Primary::Ident { .. } => address_of(variable_behind(unit, number)),
        Primary::Paren { inner } => address_object(unit, inner, depth),
        _ => None,
    }
}

// The same where `x` is what an operator makes.
#[cycle(objects)]
fn operation_address(unit: &TypedUnit, kind: &Operation, depth: u8) -> Option<Object>
    requires { depth ≤ 8 }
    ensures { result ≡ operation_address (facts_in unit.now) depth (operation_shape kind.now) }
{
    match kind {
        Operation::Index { array, index } => {
            let element = onward_at(object_of(unit, array, depth), index_of(unit, index), depth);
            address_of(element)
        }
        Operation::Member { operand, member } => {
            let selector = Selector::Field(member.name);
            let part = onward_at(object_of(unit, operand, depth), Some(selector), depth);
            address_of(part)
        }
        Operation::Arrow { operand, member } => {
            let part = behind_arrow(object_of(unit, operand, depth), member.name, depth);
            address_of(part)
        }
        Operation::Unary { op, operand } => match op {
            UnaryOp::Deref => object_of(unit, operand, depth),
            UnaryOp::AddressOf => address_of(address_object(unit, operand, depth)),
            _ => None,
        },
        Operation::Cast { operand, .. } => address_of(object_of(unit, operand, depth)),
        _ => None,
    }
}
