//! A stack of numbers, each found at its last position in constant time.

ghost use Rattle.std.specs.Prelude.{◌≡◌, ◌-◌, ◌++◌, [], ◌∷◌, length, take, nat_eq, MatchResult};
ghost use Rattle.indexmap.specs.IndexMap.{ContainsKey, Updates};
ghost use Rattle.unit_typing.specs.NumberStack.{last_position};

use indexmap::IndexMap;
use std::alloc::{AllocError, Global};
use std::marker::Model;

/// A number, with the position of the last one like it before it.
#[derive(Clone, Copy)]
struct Link {
    number: u32,
    before: Option<usize>,
}

/// A stack of numbers, in which a number may stand several times.
#[derive(Drop)]
pub(crate) struct NumberStack {
    // The numbers, the last one on top.
    links: Vec<Link>,

    // The last position of each number that stands in the stack.
    last: IndexMap<u32, usize>,
}

impl Model for NumberStack {
    ghost use Rattle.std.specs.Prelude.{ℕ, List, nat_eq};
    ghost use Rattle.indexmap.specs.IndexMap.{get};
    ghost use Rattle.unit_typing.specs.NumberStack.{numbers_of, IsIndexed};

    ghost Value = { List ℕ };

    ghost view = { λ s. numbers_of s.links.items };

    ghost invariant = { λ s. IsIndexed (get nat_eq s.last) s.links.items };
}

// Gives a number that stands in the stack this last position.
fn put_back(last: &mut IndexMap<u32, usize>, number: u32, before: Option<usize>)
    requires { ContainsKey nat_eq last.old number }
    ensures { Updates nat_eq last.old last.new number before }
{
    match before {
        Some(position) => {
            if let Some(at) = last.get_mut(&number) {
                *at = position;
            }
        }
        None => {
            last.swap_remove(&number);
        }
    }
}

impl NumberStack {
    /// No numbers.
    pub fn new(alloc: Global) -> Self
        ensures { result ≡ [] }
    {
        NumberStack {
            links: Vec::new(alloc),
            last: IndexMap::new(alloc),
        }
    }

    /// The last position of a number, counted from the bottom.
    pub fn position(&self, number: u32) -> Option<usize>
        ensures { result ≡ last_position number self.now }
    {
        self.last.get(&number).copied()
    }

    /// Puts a number on top.
    pub fn push(&mut self, number: u32) -> Result<(), AllocError>
        ensures { MatchResult result (λ _. self.new ≡ self.old ++ (number ∷ [])) (λ _. self.new ≡ self.old) }
    {
        self.links.reserve(1)?;
        let position = self.links.len();
        let before = self.last.insert(number, position)?;
        self.links.push(Link { number, before })?;
        Ok(())
    }

    /// Takes the number on top away, if there is one.
    pub fn pop(&mut self)
        ensures { self.new ≡ take (length self.old - 1) self.old }
    {
        if let Some(link) = self.links.pop() {
            put_back(&mut self.last, link.number, link.before);
        }
    }
}
