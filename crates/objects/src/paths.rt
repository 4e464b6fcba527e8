//! Steps behind an object, and a path put in the place of another.

ghost use Rattle.std.specs.Prelude.{◌≡◌, ◌++◌, ◌≤◌, Option, Some, None};
ghost use Rattle.std.specs.Option.{option_map};
ghost use Rattle.c_objects.specs.Objects.{path, up_to};
ghost use Rattle.c_objects.specs.Paths.{append, addressed, rest, rebase, begins_with};
ghost use Rattle.c_objects.specs.Replaced.{pointed, replaced};
ghost use Rattle.objects.specs.Selectors.{selectors_of};

use crate::object::{Object, copy};
use crate::selector::Selector;
use crate::steps::{behind, ends_in_star, has_access, joined};
use crate::variables::same_var;
use c_objects::steps_are_joined;

// The path of an object with these steps behind it, if it has at most so many.
fn onward(object: &Object, steps: &[Selector], depth: u8) -> Option<Object>
    requires { depth ≤ 8 }
    ensures { result ≡ up_to depth (path object.now.base (object.now.selectors ++ selectors_of steps.now)) }
{
    let most = depth as usize;
    let taken = object.selectors.len();
    if most < taken || most - taken < steps.len() {
        return None;
    }
    Some(Object {
        address: false,
        base: object.base,
        selectors: joined(object.selectors.as_slice(), steps),
    })
}

// The object, if it has at most so many steps.
fn up_to(object: &Object, depth: u8) -> Option<Object>
    ensures { result ≡ up_to depth object.now }
{
    if object.selectors.len() <= depth as usize {
        Some(copy(object))
    } else {
        None
    }
}

/// The steps behind an object: behind a path they go on from it. Behind the address of a path nothing gives the address, and `*`
/// the path, from which the others go on. There is none in every other case, and past the depth.
pub fn append(object: &Object, rest: &[Selector], depth: u8) -> Option<Object>
    requires { depth ≤ 8 }
    ensures { result ≡ append depth object.now (selectors_of rest.now) }
{
    if !object.address {
        return onward(object, rest, depth);
    }
    match rest {
        [] => up_to(object, depth),
        [Selector::Deref, later @ ..] => onward(object, later, depth),
        _ => None,
    }
}

/// The address of a path that doesn't end in `*`.
pub(crate) fn addressed(object: &Object) -> Option<Object>
    ensures { result ≡ addressed object.now }
{
    if object.address || ends_in_star(object.selectors.as_slice()) {
        return None;
    }
    Some(Object {
        address: true,
        base: object.base,
        selectors: joined(object.selectors.as_slice(), &[]),
    })
}

/// The steps by which an object, or what it is the address of, goes on behind a path. The mark of the path doesn't matter.
pub fn rest<'a>(object: &'a Object, path: &Object) -> Option<&'a [Selector]>
    ensures { option_map (λ steps. selectors_of steps.now) result ≡ rest object.now path.now }
{
    if same_var(path.base, object.base) {
        behind(path.selectors.as_slice(), object.selectors.as_slice())
    } else {
        None
    }
}

/// Whether an object is a path and begins with a path.
pub fn begins_with(object: &Object, path: &Object) -> bool
    ensures { result ≡ begins_with object.now path.now }
{
    !object.address && !path.address && rest(object, path).is_some()
}

/// Another object in the place of a path: what goes on behind the path becomes the other object with the same steps behind it. An
/// address is taken of what it becomes, where the steps have `*` or an index and that is a path. There is none in every other case.
pub fn rebase(object: &Object, from: &Object, to: &Object, depth: u8) -> Option<Object>
    requires { depth ≤ 8 }
    ensures { result ≡ rebase depth object.now from.now to.now }
{
    let Some(steps) = rest(object, from) else {
        return None;
    };
    if !object.address {
        return append(to, steps, depth);
    }
    if !has_access(steps) {
        return None;
    }
    match append(to, steps, depth) {
        Some(moved) => addressed(&moved),
        None => None,
    }
}

// What comes to a path, behind `*`, and these steps, or to the address of that.
fn pointed(path: &Object, address: bool, steps: &[Selector], depth: u8) -> Option<Object>
    requires { depth ≤ 8 }
    ensures { result ≡ pointed depth path.now address (selectors_of steps.now) }
{
    if address && steps.is_empty() {
        return up_to(path, depth);
    }
    steps_are_joined();
    let target = append(path, &[Selector::Deref], depth)?;
    let object = append(&target, steps, depth)?;
    if address {
        addressed(&object)
    } else {
        Some(object)
    }
}

/// The object that becomes this one where an object is put in the place of a path, which is the way back from `rebase`. Where a path was
/// put there, it is this one with the path in its place; where the address of `P` was, what stands behind `P` stood behind `*`.
pub fn replaced(object: &Object, from: &Object, to: &Object, depth: u8) -> Option<Object>
    requires { depth ≤ 8 }
    ensures { result ≡ replaced depth from.now to.now object.now }
{
    if !to.address {
        return rebase(object, to, from, depth);
    }
    let steps = rest(object, to)?;
    pointed(from, object.address, steps, depth)
}
