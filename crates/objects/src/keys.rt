//! Objects and steps compared and hashed, so that objects are keys of maps.

ghost use Rattle.std.specs.Prelude.{◌≡◌, fold};
ghost use Rattle.std.specs.Cmp.{partial_equiv_from_equiv, on_equiv};
ghost use Rattle.c_objects.specs.Objects.{same_selector};
ghost use Rattle.type_values.specs.Vars.{cvar_of};
ghost use Rattle.objects.specs.Selectors.{selector_of};
ghost use Rattle.objects.specs.Equality.{same_object, selectors_equiv, objects_equiv, same_object-true, selector-fed, object-fed, var_input, selector_input, object_input};

use crate::object::Object;
use crate::selector::{Selector, same_selector};
use crate::variables::same_var;
use least_set::Key;
use std::hash::{Hash, Hasher};
use type_values::Var;

impl PartialEq for Selector {
    ghost eq = { λ a b. same_selector (selector_of a) (selector_of b) };

    ghost laws = { partial_equiv_from_equiv (on_equiv selector_of selectors_equiv) };

    fn eq(&self, other: &Self) -> bool {
        same_selector(*self, *other)
    }
}

impl Eq for Selector {
    ghost laws = { on_equiv selector_of selectors_equiv };
}

// Feeds one number of a variable: that of its declarator's token, or else its name. Few variables have it in common.
fn hash_var<H: Hasher>(v: Var, state: &mut H)
    ensures { state.new ≡ fold H.write state.old (var_input (cvar_of v)) }
{
    match v {
        Var::Extern { name } => state.write_u32(name),
        Var::FileStatic { name, .. } => state.write_u32(name),
        Var::LocalStatic { token, .. } => state.write_u32(token),
        Var::Param { token, .. } => state.write_u32(token),
        Var::Local { token, .. } => state.write_u32(token),
        Var::Result => state.write_u32(0),
        Var::Called { token, .. } => state.write_u32(token),
    }
}

impl Hash for Selector {
    ghost hash_input = { λ s. selector_input (selector_of s) };

    ghost respects_eq = { selector-fed };

    fn hash<H: Hasher>(&self, state: &mut H) {
        match *self {
            Selector::Deref => state.write_u8(0),
            Selector::Field(name) => state.write_u32(name),
            Selector::At(index) => state.write_u64(index),
            Selector::AtVar(index) => hash_var(index, state),
        }
    }
}

impl PartialEq for Object {
    ghost eq = { same_object };

    ghost laws = { partial_equiv_from_equiv objects_equiv };

    #[tactic(auto, using(crate::proofs::Lists::lists))]
    fn eq(&self, other: &Self) -> bool {
        self.address == other.address
            && same_var(self.base, other.base)
            && self.selectors.as_slice() == other.selectors.as_slice()
    }
}

impl Eq for Object {
    ghost laws = { objects_equiv };
}

impl Hash for Object {
    ghost hash_input = { object_input };

    ghost respects_eq = { object-fed };

    #[tactic(auto, using(crate::proofs::Lists::lists))]
    fn hash<H: Hasher>(&self, state: &mut H) {
        hash_var(self.base, state);
        Selector::hash_slice(self.selectors.as_slice(), state);
    }
}

impl Key for Object {
    ghost same = { same_object-true };
}
