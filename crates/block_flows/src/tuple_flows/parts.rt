//! Tuples with another object, and whether that is followed.

ghost use Rattle.std.specs.Prelude.{◌≡◌, true, None, Some, IfOk};
ghost use Rattle.least_set.specs.Logs.{IsExactly, SomeGives};
ghost use Rattle.block_flows.specs.TupleFlows.Facts.{is_in, with_object, without_object};

use indexmap::IndexSet;
use objects::{Object, copy};
use state_tuples::Tuple;
use std::alloc::{AllocError, Global};

/// The tuple of a global state and of an object with its state, if that is known.
pub(crate) fn of_object(global: u16, object: Object, state: Option<(u8, u16)>) -> Tuple
    ensures global { result.global ≡ global }
    ensures object { result.object ≡ Some object }
    ensures state { result.state ≡ state }
{
    Tuple {
        global,
        object: Some(object),
        state,
    }
}

/// The tuple of a global state alone.
pub(crate) fn of_none(global: u16) -> Tuple
    ensures global { result.global ≡ global }
    ensures object { result.object ≡ None }
    ensures state { result.state ≡ None }
{
    Tuple {
        global,
        object: None,
        state: None,
    }
}

/// This object in the states of a tuple; unknown where that has no object.
pub(crate) fn with_object(tuple: &Tuple, object: Object) -> Tuple
    ensures { result ≡ with_object tuple.now object }
{
    Tuple {
        global: tuple.global,
        object: Some(object),
        state: tuple.state,
    }
}

/// No object, in the global state of a tuple.
pub(crate) fn without_object(tuple: &Tuple) -> Tuple
    ensures { result ≡ without_object tuple.now }
{
    Tuple {
        global: tuple.global,
        object: None,
        state: None,
    }
}

/// Whether an object is followed.
pub fn is_followed(followed: &IndexSet<Object>, object: &Object) -> bool
    ensures { result ≡ is_in followed.now.keys object.now }
{
    followed.contains(object)
}

/// Those of these objects that are followed, in the states of a tuple.
pub(crate) fn with_followed(
    alloc: Global,
    tuple: &Tuple,
    objects: &[Object],
    followed: &IndexSet<Object>,
) -> Result<Vec<Tuple>, AllocError>
    ensures { IfOk result (λ list. IsExactly list.items (SomeGives (λ o u. (is_in followed.now.keys o ≡ true) × (with_object tuple.now o ≡ u)) objects.now)) }
{
    let mut list = Vec::new(alloc);
    for object in objects {
        if is_followed(followed, object) {
            list.push(with_object(tuple, copy(object)))?;
        }
    }
    Ok(list)
}
