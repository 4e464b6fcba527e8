//! How moves and followed calls are filed, and what each gives an object.

ghost use Rattle.std.specs.Prelude.{◌≤◌};
ghost use Rattle.known_objects.specs.Linked.{moved_by, entered_by, handed_out_by};

use crate::changes::{Move, Numbered};
use crate::pairs::{entries, pairs};
use known_search::{Entry, Filing};
use objects::Object;
use refine_restore::handed_to;
use relevant::callee_objects;
use std::alloc::{AllocError, Global};
use std::marker::PhantomData;
use synonyms_kills::targets_after;
use typed_unit::TypedUnit;

/// Moves by their function.
#[derive(Drop)]
pub(crate) struct Moves<'s, 'a> {
    /// How many steps an object may have.
    pub(crate) depth: u8,
    pub(crate) units: PhantomData<&'s TypedUnit<'a>>,
    ghost low: { depth ≤ 8 },
}

impl<'s, 'a> Filing for Moves<'s, 'a> {
    type Change = Move<'s, 'a>;

    type Thing = (u32, Object);

    type Gift = Object;

    type Key = u32;

    ghost key_of = { λ s c. c.function };

    ghost gives = { λ s c thing o. moved_by s.depth c thing o };

    fn key(&self, change: &Move<'s, 'a>) -> u32 {
        change.function
    }

    fn keys(&self, alloc: Global, thing: &(u32, Object)) -> Result<Vec<u32>, AllocError> {
        Ok(vec![in alloc; thing.0]?)
    }

    fn gifts(
        &self,
        alloc: Global,
        change: &Move<'s, 'a>,
        thing: &(u32, Object),
    ) -> Result<Vec<Object>, AllocError> {
        if change.function != thing.0 {
            return Ok(Vec::new(alloc));
        }
        targets_after(alloc, &change.event, change.unit, &thing.1, self.depth)
    }
}

/// What followed calls pass on, by their caller.
#[derive(Drop)]
pub(crate) struct Entries<'s, 'a> {
    /// How many steps an object may have.
    pub(crate) depth: u8,
    pub(crate) units: PhantomData<&'s TypedUnit<'a>>,
    ghost low: { depth ≤ 8 },
}

impl<'s, 'a> Filing for Entries<'s, 'a> {
    type Change = Numbered<'s, 'a>;

    type Thing = (u32, Object);

    type Gift = Entry<Object>;

    type Key = u32;

    ghost key_of = { λ s c. c.call.caller };

    ghost gives = { λ s c thing e. entered_by s.depth c thing e };

    fn key(&self, change: &Numbered<'s, 'a>) -> u32 {
        change.call.caller
    }

    fn keys(&self, alloc: Global, thing: &(u32, Object)) -> Result<Vec<u32>, AllocError> {
        Ok(vec![in alloc; thing.0]?)
    }

    fn gifts(
        &self,
        alloc: Global,
        change: &Numbered<'s, 'a>,
        thing: &(u32, Object),
    ) -> Result<Vec<Entry<Object>>, AllocError> {
        if change.call.caller != thing.0 {
            return Ok(Vec::new(alloc));
        }
        let objects = callee_objects(alloc, &change.call.site, &thing.1, self.depth)?;
        entries(alloc, change, objects.as_slice())
    }
}

/// What followed calls hand back, by their callee.
#[derive(Drop)]
pub(crate) struct Callers<'s, 'a> {
    /// How many steps an object may have.
    pub(crate) depth: u8,
    pub(crate) units: PhantomData<&'s TypedUnit<'a>>,
    ghost low: { depth ≤ 8 },
}

impl<'s, 'a> Filing for Callers<'s, 'a> {
    type Change = Numbered<'s, 'a>;

    type Thing = (u32, Object);

    type Gift = (u32, Object);

    type Key = u32;

    ghost key_of = { λ s c. c.call.callee };

    ghost gives = { λ s c thing y. handed_out_by s.depth c thing y };

    fn key(&self, change: &Numbered<'s, 'a>) -> u32 {
        change.call.callee
    }

    fn keys(&self, alloc: Global, thing: &(u32, Object)) -> Result<Vec<u32>, AllocError> {
        Ok(vec![in alloc; thing.0]?)
    }

    fn gifts(
        &self,
        alloc: Global,
        change: &Numbered<'s, 'a>,
        thing: &(u32, Object),
    ) -> Result<Vec<(u32, Object)>, AllocError> {
        if change.call.callee != thing.0 {
            return Ok(Vec::new(alloc));
        }
        let objects = handed_to(alloc, &change.call.site, &thing.1, self.depth)?;
        pairs(alloc, change.call.caller, objects.as_slice())
    }
}
