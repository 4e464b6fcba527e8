//! The structures and unions of a unit, by number.

ghost use Rattle.std.specs.Prelude.{◌≡◌, ◌++◌, [], ◌∷◌, length, MatchResult};

use std::alloc::{AllocError, Global};
use std::marker::Model;

/// The tag of each structure and union, if it has one, by its number.
#[derive(Drop)]
pub(crate) struct Structs {
    tags: Vec<Option<u32>>,
}

impl Model for Structs {
    ghost use Rattle.std.specs.Prelude.{ℕ, ◌<◌, ◌^◌, List, Option, length};

    ghost Value = { List (Option ℕ) };

    ghost view = { λ s. s.tags.items };

    ghost invariant = { λ s. length s.tags.items < 2 ^ 32 };
}

impl Structs {
    /// None so far.
    pub fn new(alloc: Global) -> Self
        ensures { result ≡ [] }
    {
        Structs {
            tags: Vec::new(alloc),
        }
    }

    /// The number that the next one gets.
    pub fn next_number(&self) -> u32
        ensures { result ≡ length self.now }
    {
        self.tags.len() as u32
    }

    /// Counts one more, with this tag. More than 2^32 of them count as out of memory.
    pub fn push(&mut self, tag: Option<u32>) -> Result<(), AllocError>
        ensures { MatchResult result (λ _. self.new ≡ self.old ++ (tag ∷ [])) (λ _. self.new ≡ self.old) }
    {
        if self.tags.len() >= 4_294_967_295 {
            return Err(AllocError);
        }
        self.tags.push(tag)?;
        Ok(())
    }

    /// Their tags, by their numbers.
    pub fn into_tags(self) -> Vec<Option<u32>>
        ensures { result.items ≡ self }
    {
        self.tags
    }
}
