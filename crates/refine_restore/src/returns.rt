//! Returns of callees.

ghost use Rattle.std.specs.Prelude.{◌≡◌, ◌≤◌, is_none};
ghost use Rattle.c_tree.specs.Views.{nodes_in};
ghost use Rattle.type_rules.specs.Options.{◌>?◌};
ghost use Rattle.type_values.specs.Vars.{cvar_of};
ghost use Rattle.path_model.specs.CheckerModel.Calls.{objects_of, reaching, reached, out, first_actual};
ghost use Rattle.objects.specs.Units.{facts_in};
ghost use Rattle.refine_restore.specs.Sites.{formals_of, site_of};

use crate::entries::behind_first;
use crate::site::{Site, actuals};
use c_tree::Tree;
use objects::{Object, are_static, copy, is_object, is_static, object_of, replaced, variable};
use type_values::Var;
use typed_unit::TypedUnit;

// The object of the callee through which the first of these actuals reaches one of the caller.
fn reaching(
    unit: &TypedUnit,
    formal: Var,
    actuals: &[Tree],
    object: &Object,
    depth: u8,
) -> Option<Object>
    requires { depth ≤ 8 }
    ensures { result ≡ (first_actual (objects_of (facts_in unit.now) depth (nodes_in actuals.now)) >? λ a. reaching depth (cvar_of formal) a object.now) }
{
    if !is_object(object, depth) {
        return None;
    }
    let [actual, ..] = actuals else {
        return None;
    };
    let to = object_of(unit, actual, depth)?;
    let through = replaced(object, &variable(formal), &to, depth)?;
    if are_static(through.selectors()) {
        Some(through)
    } else {
        None
    }
}

// Through the first actual that reaches it, by formals and actuals side by side.
fn reached(
    unit: &TypedUnit,
    formals: &[Option<Var>],
    actuals: &[Tree],
    object: &Object,
    depth: u8,
) -> Option<Object>
    requires { depth ≤ 8 }
    ensures { result ≡ reached depth (formals_of formals.now) (objects_of (facts_in unit.now) depth (nodes_in actuals.now)) object.now }
{
    let [formal, rest @ ..] = formals else {
        return None;
    };
    if let Some(x) = formal {
        if let Some(through) = reaching(unit, *x, actuals, object, depth) {
            return Some(through);
        }
    }
    reached(unit, rest, behind_first(actuals), object, depth)
}

/// The callee's object whose state an object of the caller has behind the call: that through which an actual reaches it, the first one
/// that does, and else, of a global object, its own. `None` where the object is saved and has its state at the call. It takes no memory.
pub fn out_of_callee(site: &Site, caller_object: &Object, depth: u8) -> Option<Object>
    requires { depth ≤ 8 }
    ensures { result ≡ out depth (site_of depth site.now) caller_object.now }
{
    if let Some(through) = reached(
        site.unit,
        site.formals,
        actuals(site.call),
        caller_object,
        depth,
    ) {
        return Some(through);
    }
    if is_static(caller_object) {
        Some(copy(caller_object))
    } else {
        None
    }
}

/// Whether an object of the caller is saved over a call: it has behind it the state that it had at the call.
pub fn is_saved(site: &Site, caller_object: &Object, depth: u8) -> bool
    requires { depth ≤ 8 }
    ensures { result ≡ is_none (out depth (site_of depth site.now) caller_object.now) }
{
    out_of_callee(site, caller_object, depth).is_none()
}
