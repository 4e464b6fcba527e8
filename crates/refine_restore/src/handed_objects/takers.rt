//! The objects that take the state of another one at an end of a call.

ghost use Rattle.std.specs.Prelude.{◌≡◌, ◌≤◌, ◌<◌, ℕ, None, drop, get_or, length, IfOk};
ghost use Rattle.std.specs.Option.{option_map};
ghost use Rattle.c_objects.specs.Facts.{Facts};
ghost use Rattle.c_tree.specs.Views.{node_of, nodes_in};
ghost use Rattle.type_values.specs.Vars.{cvar_of};
ghost use Rattle.path_model.specs.CheckerModel.Calls.{objects_of, actuals_of, first_actual};
ghost use Rattle.refine_restore.specs.Ways.Takers.{is_taker, behind_formal, candidate, candidates, with_one, takers};
ghost use Rattle.refine_restore.specs.Sites.{site_of};

use crate::entries::into_callee;
use crate::handed_objects::ends::End;
use crate::returns::out_of_callee;
use crate::site::Site;
use c_tree::{Kind, Operation, Tree};
use objects::{Object, Origin, copy, object_of, rebase, replaced, variable};
use std::alloc::{AllocError, Global};
use type_values::Var;

// The actuals of a call.
#[tactic(auto, using(c_tree::proofs::Rows::nodes_out))]
fn actuals<'a>(call: &Tree<'a>) -> &'a [Tree<'a>]
    ensures { (u : Facts) (depth : ℕ) → objects_of u depth (nodes_in result.now) ≡ actuals_of u depth (node_of call.now) }
{
    match &call.kind {
        Kind::Operation(Operation::Call { arguments, .. }) => arguments.all,
        _ => &[],
    }
}

// The object of the actual at a position, if there is one.
fn actual_at(site: &Site, position: usize, depth: u8) -> Option<Object>
    requires { depth ≤ 8 }
    ensures { result ≡ first_actual (drop position (site_of depth site.now).actuals) }
{
    let actuals = actuals(site.call);
    if position < actuals.len() {
        object_of(site.unit, &actuals[position], depth)
    } else {
        None
    }
}

// What an object is behind a formal and its actual, seen from the other end.
fn behind_formal(
    end: End,
    object: &Object,
    formal: Var,
    actual: &Object,
    depth: u8,
) -> Option<Object>
    requires { depth ≤ 8 }
    ensures { result ≡ behind_formal end depth object.now (cvar_of formal) actual.now }
{
    match end {
        End::Entry => replaced(object, &variable(formal), actual, depth),
        End::Return => rebase(object, &variable(formal), actual, depth),
    }
}

// The candidate that a formal and its actual give, if they are there.
fn candidate(
    end: End,
    object: &Object,
    formal: Option<Var>,
    actual: Option<Object>,
    depth: u8,
) -> Option<Object>
    requires { depth ≤ 8 }
    ensures { result ≡ candidate end depth object.now (option_map cvar_of formal) actual }
{
    match formal {
        Some(formal) => match actual {
            Some(actual) => behind_formal(end, object, formal, &actual, depth),
            None => None,
        },
        None => None,
    }
}

// The candidate that the formal at a position gives.
fn candidate_at(
    site: &Site,
    end: End,
    object: &Object,
    position: usize,
    depth: u8,
) -> Option<Object>
    requires depth { depth ≤ 8 }
    requires within { position < length site.now.formals.now }
    ensures { result ≡ get_or (candidates end depth object.now (site_of depth site.now).formals (site_of depth site.now).actuals) position None }
{
    let actual = actual_at(site, position, depth);
    candidate(end, object, site.formals[position], actual, depth)
}

// Whether an object takes the state of another.
fn is_taker(site: &Site, end: End, object: &Object, taker: &Object, depth: u8) -> bool
    requires { depth ≤ 8 }
    ensures { result ≡ is_taker end depth (site_of depth site.now) object.now taker.now }
{
    match end {
        End::Entry => match into_callee(site, taker, depth) {
            Origin::Same => taker == object,
            Origin::From(origin) => origin == *object,
            Origin::Nothing => false,
        },
        End::Return => match out_of_callee(site, taker, depth) {
            Some(origin) => origin == *object,
            None => false,
        },
    }
}

// Adds a candidate, if it takes the state and isn't there.
fn add(
    takers: &mut Vec<Object>,
    site: &Site,
    end: End,
    object: &Object,
    candidate: Option<Object>,
    depth: u8,
) -> Result<(), AllocError>
    requires { depth ≤ 8 }
    ensures { IfOk result (λ _. takers.new.items ≡ with_one (is_taker end depth (site_of depth site.now) object.now) takers.old.items candidate) }
{
    let Some(taker) = candidate else {
        return Ok(());
    };
    if !is_taker(site, end, object, &taker, depth) {
        return Ok(());
    }
    if takers.contains(&taker) {
        return Ok(());
    }
    takers.push(taker)?;
    Ok(())
}

/// The objects that take an object's state at an end of a call.
pub(crate) fn takers(
    alloc: Global,
    site: &Site,
    end: End,
    object: &Object,
    depth: u8,
) -> Result<Vec<Object>, AllocError>
    requires { depth ≤ 8 }
    ensures { IfOk result (λ list. list.items ≡ takers end depth (site_of depth site.now) object.now) }
{
    let mut takers = Vec::new(alloc);
    add(&mut takers, site, end, object, Some(copy(object)), depth)?;
    for position in 0..site.formals.len() {
        let candidate = candidate_at(site, end, object, position, depth);
        add(&mut takers, site, end, object, candidate, depth)?;
    }
    Ok(takers)
}
