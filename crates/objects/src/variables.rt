//! Variables as bases and as indices.

ghost use Rattle.std.specs.Prelude.{◌≡◌};
ghost use Rattle.c_objects.specs.Objects.{same_var, is_static_var};
ghost use Rattle.type_values.specs.Vars.{cvar_of};

use type_values::Var;

/// Whether two variables are one.
pub fn same_var(a: Var, b: Var) -> bool
    ensures { result ≡ same_var (cvar_of a) (cvar_of b) }
{
    a == b
}

/// Whether a variable has static storage (ISO 9899:1990, 6.1.2.4).
pub fn is_static_var(v: Var) -> bool
    ensures { result ≡ is_static_var (cvar_of v) }
{
    match v {
        Var::Extern { .. } => true,
        Var::FileStatic { .. } => true,
        Var::LocalStatic { .. } => true,
        Var::Result => true,
        _ => false,
    }
}
