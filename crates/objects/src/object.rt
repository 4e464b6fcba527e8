//! Objects.

ghost use Rattle.std.specs.Prelude.{◌≡◌, ◌≤◌, [], length};
ghost use Rattle.c_objects.specs.Objects.{path, is_object, is_static, mentions};
ghost use Rattle.type_values.specs.Vars.{cvar_of};
ghost use Rattle.objects.specs.Selectors.{selectors_of};

use crate::selector::Selector;
use crate::steps::{are_static, ends_in_star, is_indexed_by, joined};
use crate::variables::is_static_var;
use arrayvec::ArrayVec;
use std::marker::Model;
use type_values::Var;

/// A path, which is a variable and at most 8 steps from it, or, with the mark, the address of a path. A contract sees its mark,
/// its variable and the list of its steps.
#[derive(Drop)]
pub struct Object {
    pub(crate) address: bool,
    pub(crate) base: Var,
    pub(crate) selectors: ArrayVec<Selector, 8>,
}

impl Model for Object {
    ghost use Rattle.c_objects.specs.Objects.{Object as Seen};
    ghost use Rattle.type_values.specs.Vars.{cvar_of};
    ghost use Rattle.objects.specs.Selectors.{selectors_of};

    ghost Value = { Seen };

    ghost view = { λ o. record { address = o.address; base = cvar_of o.base; selectors = selectors_of o.selectors.items } };
}

/// The path that is a variable by itself.
pub fn variable(base: Var) -> Object
    ensures { result ≡ path (cvar_of base) [] }
{
    Object {
        address: false,
        base,
        selectors: ArrayVec::new(),
    }
}

impl Object {
    /// Whether it is the address of a path.
    pub fn is_address(&self) -> bool
        ensures { result ≡ self.now.address }
    {
        self.address
    }

    /// The variable from which its path goes.
    pub fn base(&self) -> Var
        ensures { cvar_of result ≡ self.now.base }
    {
        self.base
    }

    /// The steps of its path.
    pub fn selectors(&self) -> &[Selector]
        ensures steps { selectors_of result.now ≡ self.now.selectors }
        ensures few { length result.now ≤ 8 }
    {
        self.selectors.as_slice()
    }
}

/// An equal object. It takes no memory.
pub fn copy(object: &Object) -> Object
    ensures { result ≡ object.now }
{
    Object {
        address: object.address,
        base: object.base,
        selectors: joined(object.selectors.as_slice(), &[]),
    }
}

/// Whether it is an object at this depth: it has at most `depth` steps, and what it is the address of doesn't end in `*`.
pub fn is_object(object: &Object, depth: u8) -> bool
    ensures { result ≡ is_object depth object.now }
{
    let steps = object.selectors.as_slice();
    steps.len() <= depth as usize && !(object.address && ends_in_star(steps))
}

/// Whether an object's variable and all its index variables have static storage.
pub fn is_static(object: &Object) -> bool
    ensures { result ≡ is_static object.now }
{
    is_static_var(object.base) && are_static(object.selectors.as_slice())
}

/// Whether a variable is an index in an object.
pub fn mentions(object: &Object, v: Var) -> bool
    ensures { result ≡ mentions object.now (cvar_of v) }
{
    is_indexed_by(object.selectors.as_slice(), v)
}
