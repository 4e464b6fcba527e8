//! A program as links.

ghost use Rattle.std.specs.Prelude.{◌≡◌, ◌≤◌, Contains, IfOk, slice_get};
ghost use Rattle.std.specs.Option.{option_map};
ghost use Rattle.known_objects.specs.Linked.{handed_by, MovesIn, EntersIn, HandsIn};
ghost use Rattle.least_set.specs.Logs.{IsExactly};

use crate::changes::Numbered;
use crate::filings::{Callers, Entries, Moves};
use known_search::{Entry, Filed, Links, given};
use objects::{Object, copy};
use refine_restore::handed_to;
use relevant::copies;
use std::alloc::{AllocError, Global};

// The call with a number, which is its place, if there is one.
fn call_at<'c, 's, 'a>(calls: &'c [Numbered<'s, 'a>], number: usize) -> Option<&'c Numbered<'s, 'a>>
    ensures { option_map (λ x. x.now) result ≡ slice_get calls.now number }
{
    calls.get(number)
}

// The caller's objects to which a call hands back the state of one of the callee's; none where it isn't a call between these functions.
fn handed_over(
    alloc: Global,
    call: &Numbered,
    callee: u32,
    object: &Object,
    caller: u32,
    depth: u8,
) -> Result<Vec<Object>, AllocError>
    requires { depth ≤ 8 }
    ensures { IfOk result (λ list. IsExactly list.items (handed_by depth call.now callee object.now caller)) }
{
    if call.call.callee != callee {
        return Ok(Vec::new(alloc));
    }
    if call.call.caller != caller {
        return Ok(Vec::new(alloc));
    }
    handed_to(alloc, &call.call.site, object, depth)
}

/// What rules bind in a program, and its moves and followed calls with their indexes.
#[derive(Drop)]
pub(crate) struct ProgramLinks<'l, 's, 'a> {
    pub(crate) bound: &'l [(u32, Object)],
    pub(crate) moves: Filed<'l, Moves<'s, 'a>>,
    pub(crate) entries: Filed<'l, Entries<'s, 'a>>,
    pub(crate) callers: Filed<'l, Callers<'s, 'a>>,
}

impl Links for ProgramLinks<'_, '_, '_> {
    type Object = Object;

    ghost is_bound = { λ s f o. Contains s.bound.now (f, o) };

    ghost moves = { λ s. MovesIn s.moves.filing.now.depth s.moves.changes.now };

    ghost enters = { λ s. EntersIn s.entries.filing.now.depth s.entries.changes.now };

    ghost hands = { λ s. HandsIn s.callers.filing.now.depth s.callers.changes.now };

    fn copy(&self, object: &Object) -> Object {
        copy(object)
    }

    fn bound(&self, alloc: Global) -> Result<Vec<(u32, Object)>, AllocError> {
        copies(alloc, self.bound)
    }

    fn moved(
        &self,
        alloc: Global,
        function: u32,
        object: &Object,
    ) -> Result<Vec<Object>, AllocError> {
        given(alloc, &self.moves, &(function, copy(object)))
    }

    fn entered(
        &self,
        alloc: Global,
        function: u32,
        object: &Object,
    ) -> Result<Vec<Entry<Object>>, AllocError> {
        given(alloc, &self.entries, &(function, copy(object)))
    }

    fn handed(
        &self,
        alloc: Global,
        call: usize,
        callee: u32,
        object: &Object,
        caller: u32,
    ) -> Result<Vec<Object>, AllocError> {
        match call_at(self.callers.changes, call) {
            Some(found) => handed_over(
                alloc,
                found,
                callee,
                object,
                caller,
                self.callers.filing.depth,
            ),
            None => Ok(Vec::new(alloc)),
        }
    }

    fn handed_out(
        &self,
        alloc: Global,
        callee: u32,
        object: &Object,
    ) -> Result<Vec<(u32, Object)>, AllocError> {
        given(alloc, &self.callers, &(callee, copy(object)))
    }
}
