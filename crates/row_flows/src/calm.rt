//! Events that leave an object calm.

ghost use Rattle.std.specs.Prelude.{◌≡◌};
ghost use Rattle.std.specs.List.{list_all};
ghost use Rattle.row_flows.specs.Calm.{begins_in_object, is_calm, leaves, spares};

use crate::choices::leads_globally;
use crate::rows::{Applied, EventRow, NumberedSource, Touched};

// Whether what is touched is another object, and has its state from another.
fn spares(object: u32, touched: &Touched) -> bool
    ensures { result ≡ spares object touched.now }
{
    touched.object != object && touched.source != object
}

// Whether an alternative goes from a state of an object.
pub(crate) fn begins_in_object(source: NumberedSource) -> bool
    ensures { result ≡ begins_in_object source }
{
    match source {
        NumberedSource::Global(_) => false,
        NumberedSource::Object(_) => true,
    }
}

// Whether an alternative is none that the object, in whichever state, or the global state may take.
fn leaves(object: u32, is_exit: bool, applied: &Applied) -> bool
    ensures { result ≡ leaves object is_exit applied.now }
{
    !leads_globally(applied.target)
        && (object == 0
            || (applied.object != object && !(is_exit && begins_in_object(applied.source))))
}

// Whether none of these is the object, or gives it its state.
fn all_spare(object: u32, touched: &[Touched]) -> bool
    ensures { result ≡ list_all (spares object) touched.now }
{
    touched.iter().all(|one| spares(object, one))
}

// Whether none of these is taken.
fn all_leave(object: u32, is_exit: bool, applied: &[Applied]) -> bool
    ensures { result ≡ list_all (leaves object is_exit) applied.now }
{
    applied.iter().all(|one| leaves(object, is_exit, one))
}

/// Whether an event leaves the object with a number calm: it neither touches it nor hands on its state, and no alternative applies that it, or
/// the global state, may take. A tuple without an object, of the number 0, is calm where no object begins and the global state stays.
pub fn is_calm(row: &EventRow, object: u32) -> bool
    ensures { result ≡ is_calm row.now object }
{
    all_spare(object, row.touched.as_slice())
        && all_leave(object, row.is_exit, row.applied.as_slice())
}
