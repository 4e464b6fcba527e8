//! The steps of a path.

ghost use Rattle.std.specs.Prelude.{◌≡◌};
ghost use Rattle.c_objects.specs.Objects.{same_selector};
ghost use Rattle.objects.specs.Selectors.{selector_of};

use crate::variables::same_var;
use type_values::Var;

/// One step of a path.
#[derive(Clone, Copy, Default)]
pub enum Selector {
    /// `*`
    #[default]
    Deref,
    /// `.f`, by the name of the member.
    Field(u32),
    /// `[n]`, by an integer constant.
    At(u64),
    /// `[i]`, by an integer variable.
    AtVar(Var),
}

/// Whether two steps are the same.
pub(crate) fn same_selector(a: Selector, b: Selector) -> bool
    ensures { result ≡ same_selector (selector_of a) (selector_of b) }
{
    match a {
        Selector::Deref => match b {
            Selector::Deref => true,
            _ => false,
        },
        Selector::Field(name) => match b {
            Selector::Field(other) => name == other,
            _ => false,
        },
        Selector::At(index) => match b {
            Selector::At(other) => index == other,
            _ => false,
        },
        Selector::AtVar(index) => match b {
            Selector::AtVar(other) => same_var(index, other),
            _ => false,
        },
    }
}
