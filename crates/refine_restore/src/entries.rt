//! Entries of callees.

ghost use Rattle.std.specs.Prelude.{◌≡◌, ◌≤◌, ℕ, []};
ghost use Rattle.c_objects.specs.Facts.{Facts};
ghost use Rattle.c_objects.specs.Objects.{path};
ghost use Rattle.c_objects.specs.Paths.{rebase};
ghost use Rattle.c_tree.specs.Views.{nodes_in};
ghost use Rattle.type_rules.specs.Options.{◌>?◌};
ghost use Rattle.type_values.specs.Vars.{cvar_of};
ghost use Rattle.path_model.specs.CheckerModel.Calls.{objects_of, behind_first, passed, into, first_actual};
ghost use Rattle.objects.specs.Origins.{origin_of};
ghost use Rattle.objects.specs.Units.{facts_in};
ghost use Rattle.refine_restore.specs.Sites.{formals_of, site_of};

use crate::site::{Site, actuals};
use c_tree::Tree;
use objects::{
    Object, Origin, are_static, is_object, is_static_var, object_of, rebase, same_var, variable,
};
use type_values::Var;
use typed_unit::TypedUnit;

// The source of an object behind a formal: what stands there behind the first of these actuals.
fn from_actual(
    unit: &TypedUnit,
    formal: Var,
    actuals: &[Tree],
    object: &Object,
    depth: u8,
) -> Origin
    requires { depth ≤ 8 }
    ensures { origin_of object.now result ≡ (first_actual (objects_of (facts_in unit.now) depth (nodes_in actuals.now)) >? λ a. rebase depth object.now (path (cvar_of formal) []) a) }
{
    let [actual, ..] = actuals else {
        return Origin::Nothing;
    };
    let Some(from) = object_of(unit, actual, depth) else {
        return Origin::Nothing;
    };
    match rebase(object, &variable(formal), &from, depth) {
        Some(source) => Origin::From(source),
        None => Origin::Nothing,
    }
}

// All but the first.
pub(crate) fn behind_first<'s, 'a>(actuals: &'s [Tree<'a>]) -> &'s [Tree<'a>]
    ensures { (u : Facts) (depth : ℕ) → objects_of u depth (nodes_in result.now) ≡ behind_first (objects_of u depth (nodes_in actuals.now)) }
{
    match actuals {
        [] => &[],
        [_, rest @ ..] => rest,
    }
}

// The source of an object at the entry, by formals and actuals side by side.
fn passed(
    unit: &TypedUnit,
    formals: &[Option<Var>],
    actuals: &[Tree],
    object: &Object,
    depth: u8,
) -> Origin
    requires { depth ≤ 8 }
    ensures { origin_of object.now result ≡ passed depth (formals_of formals.now) (objects_of (facts_in unit.now) depth (nodes_in actuals.now)) object.now }
{
    let [formal, rest @ ..] = formals else {
        return if is_static_var(object.base()) {
            Origin::Same
        } else {
            Origin::Nothing
        };
    };
    match formal {
        Some(x) if same_var(object.base(), *x) => from_actual(unit, *x, actuals, object, depth),
        _ => passed(unit, rest, behind_first(actuals), object, depth),
    }
}

/// The caller's object whose state an object of the callee begins with: behind a formal that of the actual, and a global object its own;
/// an object of which an index variable has no static storage begins unknown. It takes no memory.
pub fn into_callee(site: &Site, callee_object: &Object, depth: u8) -> Origin
    requires { depth ≤ 8 }
    ensures { origin_of callee_object.now result ≡ into depth (site_of depth site.now) callee_object.now }
{
    if !is_object(callee_object, depth) || !are_static(callee_object.selectors()) {
        return Origin::Nothing;
    }
    passed(
        site.unit,
        site.formals,
        actuals(site.call),
        callee_object,
        depth,
    )
}
