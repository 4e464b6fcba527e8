//! Entries with names, where the latest of a name is found in constant time.

ghost use Rattle.std.specs.Prelude.{◌≡◌, ℕ, ◌++◌, [], ◌∷◌, drop, length, take, IfOk, MatchResult};
ghost use Rattle.unit_typing.specs.Entries.{latest_by};

use crate::items::item_at;
use crate::number_stack::NumberStack;
use std::alloc::{AllocError, Global};
use std::marker::Model;

/// What has a name.
pub trait Named {
    ghost name_of: { Self → ℕ };

    fn name(&self) -> u32
        ensures { result ≡ name_of self.now };
}

/// Entries in the order in which they came.
#[derive(Drop)]
pub(crate) struct Entries<T: Named + Copy> {
    all: Vec<T>,
    // The name of each.
    names: NumberStack,
}

impl<T: Named + Copy> Model for Entries<T> {
    ghost use Rattle.std.specs.Prelude.{◌≡◌, List, map};

    ghost Value = { List T };

    ghost view = { λ s. s.all.items };

    ghost invariant = { λ s. s.names ≡ map T.name_of s.all.items };
}

impl<T: Named + Copy> Entries<T> {
    /// No entries.
    pub fn new(alloc: Global) -> Self
        ensures { result ≡ [] }
    {
        Entries {
            all: Vec::new(alloc),
            names: NumberStack::new(alloc),
        }
    }

    /// The number of entries.
    pub fn len(&self) -> usize
        ensures { result ≡ length self.now }
    {
        self.all.len()
    }

    /// The latest entry of a name.
    pub fn latest(&self, name: u32) -> Option<T>
        ensures { result ≡ latest_by T.name_of name self.now }
    {
        match self.names.position(name) {
            Some(position) => item_at(&self.all, position),
            None => None,
        }
    }

    /// Puts an entry behind the others.
    pub fn push(&mut self, entry: T) -> Result<(), AllocError>
        ensures { MatchResult result (λ _. self.new ≡ self.old ++ (entry ∷ [])) (λ _. self.new ≡ self.old) }
    {
        self.all.reserve(1)?;
        self.names.push(entry.name())?;
        self.all.push(entry)?;
        Ok(())
    }

    /// Takes away the entries behind the first `len`.
    pub fn cut(&mut self, len: usize)
        ensures { self.new ≡ take len self.old }
    {
        while self.all.len() > len {
            self.all.pop();
            self.names.pop();
        }
    }

    /// The entries behind the first `len`.
    pub fn behind(&self, len: usize) -> &[T]
        ensures { result.now ≡ drop len self.now }
    {
        if len < self.all.len() {
            return &self.all[len..];
        }
        &[]
    }

    /// Copies of the entries behind the first `len` in place of what was there.
    pub fn copy_behind(&self, len: usize, into: &mut Vec<T>) -> Result<(), AllocError>
        ensures { IfOk result (λ _. into.new.items ≡ drop len self.now) }
    {
        into.clear();
        if len < self.all.len() {
            into.extend_from_slice(&self.all[len..])?;
        }
        Ok(())
    }

    /// Puts these entries behind the others.
    pub fn push_all(&mut self, entries: &[T]) -> Result<(), AllocError>
        ensures { IfOk result (λ _. self.new ≡ self.old ++ entries.now) }
    {
        for entry in entries {
            self.push(*entry)?;
        }
        Ok(())
    }
}
