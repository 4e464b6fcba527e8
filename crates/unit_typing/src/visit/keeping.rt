//! Which nodes have a type that is kept, and which a variable.

ghost use Rattle.std.specs.Prelude.{◌≡◌, Ok, IfOk};
ghost use Rattle.std.specs.Option.{option_map};
ghost use Rattle.c_tree.specs.Node as nodes;
ghost use Rattle.c_tree.specs.Views.{primary_shape, initializer_shape, specifier_shape};
ghost use Rattle.type_rules.specs.Order.{put_kept};
ghost use Rattle.type_rules.specs.Roles.{Role};
ghost use Rattle.type_rules.specs.Rows.{keeps_initializer, keeps_specifier, var_of};
ghost use Rattle.type_rules.specs.Scopes as held;
ghost use Rattle.typed_unit.specs.Tables.{table_of};
ghost use Rattle.type_values.specs.Types.{ctype_of};
ghost use Rattle.type_values.specs.Vars.{cvar_of};
ghost use Rattle.unit_typing.specs.Scopes.{scopes_of};

use crate::operands::variable_of;
use crate::scopes::Scopes;
use c_tree::{Initializer, Primary, Specifier};
use std::alloc::AllocError;
use type_values::{Ty, Var};
use typed_unit::{Cell, Table};

/// The variable behind a primary expression: an identifier may stand for one.
pub(crate) fn primary_var(scopes: &Scopes, kind: &Primary) -> Option<Var>
    ensures { (w : held.Scopes) (r : Role) → option_map cvar_of result ≡ var_of (scopes_of scopes.now) w r (nodes.Primary (primary_shape kind.now)) }
{
    match kind {
        Primary::Ident { name } => variable_of(scopes, name.name),
        _ => None,
    }
}

/// Whether the type of an initializer is kept: that of a name with its initial.
pub(crate) fn initializer_is_kept(kind: &Initializer) -> bool
    ensures { result ≡ keeps_initializer (initializer_shape kind.now) }
{
    match kind {
        Initializer::Init { .. } => true,
        _ => false,
    }
}

/// Whether the type of a specifier is kept: that of a type name.
pub(crate) fn specifier_is_kept(kind: &Specifier) -> bool
    ensures { result ≡ keeps_specifier (specifier_shape kind.now) }
{
    match kind {
        Specifier::TypeName { .. } => true,
        _ => false,
    }
}

/// Keeps the type of a node and the variable behind it, where its type is kept.
pub(crate) fn keep<'a>(
    table: &mut Table<'a>,
    kept: bool,
    number: u32,
    var: Option<Var>,
    ty: Ty<'a>,
) -> Result<(), AllocError>
    ensures { IfOk result (λ _. table_of table.new ≡ put_kept kept number (option_map cvar_of var) (Ok (ctype_of ty.entry)) (table_of table.old)) }
{
    if !kept {
        return Ok(());
    }
    table.put(number, Cell { ty, var })
}
