//! Holes: what they may take, and what they took before.

ghost use Rattle.std.specs.Prelude.{◌≡◌, None, false, cond, slice_get};
ghost use Rattle.std.specs.Option.{option_map};
ghost use Rattle.type_rules.specs.Options.{if_there};
ghost use Rattle.type_values.specs.Types.{ctype_of};
ghost use Rattle.hole_matcher.specs.HoleBindings.Bindings.{taken_of, binding_of, behind};
ghost use Rattle.hole_matcher.specs.HoleBindings.Settings.{setting_in};
ghost use Rattle.hole_matching.specs.Holes.{is_scalar, is_pointer, takes_type, is_rest_type, is_variable, may_take, takes_rest};
ghost use Rattle.hole_matching.specs.Matched.{bound, are_equal};
ghost use Rattle.hole_matching.specs.Matching.{One};
ghost use Rattle.metal_tree.specs.Views.{hole_type_view};
ghost use Rattle.objects.specs.Units.{facts_in};
ghost use Rattle.c_tree.specs.PathSubjects.Values.{subject_of};

use crate::hole_bindings::binding::{Binding, Taken};
use crate::hole_bindings::items::item_at;
use crate::hole_bindings::named::has_object;
use crate::hole_bindings::setting::Setting;
use c_tree::Subject;
use metal_tree::HoleType;
use tree_comparison::{is_expression, is_named_type, same_arguments, same_subject, subject_type};
use type_values::Ty;
use typed_unit::TypedUnit;

// Whether a hole takes again what it took.
fn same_taken<'a>(unit: &TypedUnit<'a>, old: Taken<'a>, new: Taken<'a>) -> bool
    ensures { result ≡ are_equal (facts_in unit.now) (taken_of old.entry) (taken_of new.entry) }
{
    match old {
        Taken::One(left) => match new {
            Taken::One(right) => same_subject(unit, left, right),
            Taken::Many(_) => false,
        },
        Taken::Many(left) => match new {
            Taken::Many(right) => same_arguments(unit, left, right),
            Taken::One(_) => false,
        },
    }
}

/// A hole takes this: an empty slot is filled, and a full one has to hold what is equal.
pub fn bind<'a>(unit: &TypedUnit<'a>, hole: u8, taken: Taken<'a>, into: &mut Binding<'a>) -> bool
    ensures { behind result (binding_of into.new) ≡ bound (facts_in unit.now) hole (taken_of taken.entry) (binding_of into.old) }
{
    match into.slot(hole) {
        Some(old) => same_taken(unit, old, taken),
        None => {
            into.put(hole, taken);
            true
        }
    }
}

// Whether a type is arithmetic or a pointer (ISO 9899:1990, 6.1.2.5).
fn is_scalar(ty: &Ty) -> bool
    ensures { result ≡ is_scalar (ctype_of ty.now) }
{
    match ty {
        Ty::Arith(_) => true,
        Ty::Pointer(_) => true,
        _ => false,
    }
}

// Whether a type is that of a pointer or an array.
fn is_pointer(ty: &Ty) -> bool
    ensures { result ≡ is_pointer (ctype_of ty.now) }
{
    match ty {
        Ty::Pointer(_) => true,
        Ty::Array(_) => true,
        _ => false,
    }
}

// Whether a hole of a type takes an expression of another.
fn takes_type(unit: &TypedUnit, of: &HoleType, ty: &Ty) -> bool
    ensures { result ≡ takes_type (facts_in unit.now) (hole_type_view of.now) (ctype_of ty.now) }
{
    match of {
        HoleType::AnyExpr => true,
        HoleType::AnyScalar => is_scalar(ty),
        HoleType::AnyPointer => is_pointer(ty),
        HoleType::AnyArguments => false,
        HoleType::AnyFnCall => true,
        HoleType::Named(named) => is_named_type(unit, named, ty),
    }
}

// Whether the type of a hole is that for the rest of a list.
fn is_rest_type(of: &HoleType) -> bool
    ensures { result ≡ is_rest_type (hole_type_view of.now) }
{
    matches!(of, HoleType::AnyArguments)
}

// The type of a hole, if the machine has it.
fn declared<'s>(setting: &Setting<'s, '_>, hole: u8) -> Option<HoleType<'s>>
    ensures { option_map hole_type_view result ≡ slice_get (setting_in setting.now).holes hole }
{
    match item_at(setting.holes, hole as usize) {
        Some(found) => Some(found.of),
        None => None,
    }
}

// Whether the machine has this hole, and it takes what has this type.
fn takes_typed(setting: &Setting, hole: u8, ty: &Ty) -> bool
    ensures { result ≡ if_there (slice_get (setting_in setting.now).holes hole) false (λ h. takes_type (facts_in setting.now.unit.now) h (ctype_of ty.now)) }
{
    match declared(setting, hole) {
        Some(of) => takes_type(setting.unit, &of, ty),
        None => false,
    }
}

// Whether a hole is a state variable.
fn is_variable(setting: &Setting, hole: u8) -> bool
    ensures { result ≡ is_variable (setting_in setting.now) hole }
{
    hole < setting.variables
}

// Whether a hole takes a subject that isn't in parentheses.
fn may_take(setting: &Setting, hole: u8, subject: Subject) -> bool
    ensures { result ≡ may_take (setting_in setting.now) hole (subject_of subject.entry) }
{
    hole < 16
        && is_expression(subject)
        && takes_typed(setting, hole, &subject_type(setting.unit, subject))
        && (!is_variable(setting, hole) || has_object(setting.unit, subject, setting.depth))
}

/// A hole takes a subject that isn't in parentheses, if it may.
pub fn take<'a>(
    setting: &Setting<'_, 'a>,
    hole: u8,
    subject: Subject<'a>,
    into: &mut Binding<'a>,
) -> bool
    ensures { behind result (binding_of into.new) ≡ cond (may_take (setting_in setting.now) hole (subject_of subject.entry)) (bound (facts_in setting.now.unit.now) hole (One (subject_of subject.entry)) (binding_of into.old)) None }
{
    may_take(setting, hole, subject) && bind(setting.unit, hole, Taken::One(subject), into)
}

/// Whether a hole takes the rest of a list of arguments.
pub fn takes_rest(setting: &Setting, hole: u8) -> bool
    ensures { result ≡ takes_rest (setting_in setting.now) hole }
{
    match declared(setting, hole) {
        Some(of) => hole < 16 && is_rest_type(&of),
        None => false,
    }
}
