//! Lists of steps.

ghost use Rattle.std.specs.Prelude.{◌≡◌, ◌++◌, ◌+◌, ◌≤◌, length};
ghost use Rattle.std.specs.Option.{option_map};
ghost use Rattle.c_objects.specs.Objects.{ends_in_star, are_static, is_indexed_by};
ghost use Rattle.c_objects.specs.Paths.{behind, has_access};
ghost use Rattle.type_values.specs.Vars.{cvar_of};
ghost use Rattle.objects.specs.Selectors.{selectors_of};

use crate::selector::{Selector, same_selector};
use crate::variables::{is_static_var, same_var};
use arrayvec::ArrayVec;
use type_values::Var;

/// Whether the last step is `*`.
pub(crate) fn ends_in_star(steps: &[Selector]) -> bool
    ensures { result ≡ ends_in_star (selectors_of steps.now) }
{
    match steps {
        [] => false,
        [Selector::Deref] => true,
        [_, rest @ ..] => ends_in_star(rest),
    }
}

/// Whether one of the steps is `*` or an index.
pub fn has_access(steps: &[Selector]) -> bool
    ensures { result ≡ has_access (selectors_of steps.now) }
{
    match steps {
        [] => false,
        [Selector::Field(_), rest @ ..] => has_access(rest),
        _ => true,
    }
}

/// Whether all index variables have static storage.
pub fn are_static(steps: &[Selector]) -> bool
    ensures { result ≡ are_static (selectors_of steps.now) }
{
    match steps {
        [] => true,
        [Selector::AtVar(index), rest @ ..] => is_static_var(*index) && are_static(rest),
        [_, rest @ ..] => are_static(rest),
    }
}

/// Whether this variable is an index.
pub fn is_indexed_by(steps: &[Selector], v: Var) -> bool
    ensures { result ≡ is_indexed_by (selectors_of steps.now) (cvar_of v) }
{
    match steps {
        [] => false,
        [Selector::AtVar(index), rest @ ..] => same_var(*index, v) || is_indexed_by(rest, v),
        [_, rest @ ..] => is_indexed_by(rest, v),
    }
}

/// What stands behind the first steps.
pub(crate) fn behind<'a>(front: &[Selector], steps: &'a [Selector]) -> Option<&'a [Selector]>
    ensures { option_map (λ rest. selectors_of rest.now) result ≡ behind (selectors_of front.now) (selectors_of steps.now) }
{
    let [first, later @ ..] = front else {
        return Some(steps);
    };
    let [step, rest @ ..] = steps else {
        return None;
    };
    if same_selector(*first, *step) {
        behind(later, rest)
    } else {
        None
    }
}

/// Two lists of steps, one behind the other.
pub(crate) fn joined(front: &[Selector], rest: &[Selector]) -> ArrayVec<Selector, 8>
    requires { length front.now + length rest.now ≤ 8 }
    ensures { result.items ≡ front.now ++ rest.now }
{
    let mut all = ArrayVec::new();
    let _fits = all.try_extend_from_slice(front);
    let _fits = all.try_extend_from_slice(rest);
    all
}
