//! The functions of a program, and where the body of each name is.

ghost use Rattle.std.specs.Prelude.{◌≡◌, ◌+◌, ◌<◌, ◌^◌, ◌++◌, [], ◌∷◌, length, nat_eq, cond, None, Some, ℕ, IfOk, IsOk, MatchResult};
ghost use Rattle.std.specs.Option.{option_map};
ghost use Rattle.type_rules.specs.Options.{or_else};
ghost use Rattle.indexmap.specs.IndexMap.{get, spare};
ghost use Rattle.typed_unit.specs.Functions.{function_of};
ghost use Rattle.call_graph.specs.OfPrograms.Bodies.{body_of};
ghost use Rattle.call_graph.specs.OfPrograms.Definitions.{defined_by};
ghost use Rattle.call_graph.specs.OfPrograms.Repeats.{repeats};
ghost use Rattle.call_graph.specs.OfPrograms.Tables.{same_key, is_shared, AreFiled};

use indexmap::IndexMap;
use std::alloc::{AllocError, Global};
use typed_unit::TypedFunction;

/// A function of a program, by its position in source order: that of the files, and in each that of the text.
#[derive(Clone, Copy, Debug, PartialEq, Eq)]
pub struct FnId {
    pub number: u32,
}

/// Functions in source order. A body is found by its name in constant time.
#[derive(Drop)]
pub struct Functions<'u, 'a> {
    pub all: Vec<&'u TypedFunction<'a>>,

    // The first position of each name in each file.
    in_file: IndexMap<(u16, u32), u32>,

    // The first position of each name with external linkage.
    external: IndexMap<u32, u32>,

    ghost filed: { AreFiled (get same_key in_file) (get nat_eq external) (defined_by all.items) },
}

// Keeps the position of a name in a file, unless there is one already.
fn note_in_file(
    in_file: &mut IndexMap<(u16, u32), u32>,
    file: u16,
    name: u32,
    position: u32,
) -> Result<(), AllocError>
    ensures noted { IfOk result (λ _. (k : ℕ × ℕ) → get same_key in_file.new k ≡ or_else (get same_key in_file.old k) (cond (same_key (file, name) k) (Some position) None)) }
    ensures room { 0 < spare in_file.old → IsOk result }
{
    match in_file.get(&(file, name)).copied() {
        Some(_) => Ok(()),
        None => {
            in_file.insert((file, name), position)?;
            Ok(())
        }
    }
}

// Keeps the position of a name with external linkage, unless there is one already, or it has none.
fn note_external(
    external: &mut IndexMap<u32, u32>,
    own: bool,
    name: u32,
    position: u32,
) -> Result<(), AllocError>
    ensures noted { IfOk result (λ _. (n : ℕ) → get nat_eq external.new n ≡ or_else (get nat_eq external.old n) (cond (is_shared own name n) (Some position) None)) }
    ensures room { 0 < spare external.old → IsOk result }
{
    if own {
        return Ok(());
    }
    match external.get(&name).copied() {
        Some(_) => Ok(()),
        None => {
            external.insert(name, position)?;
            Ok(())
        }
    }
}

impl<'u, 'a> Functions<'u, 'a> {
    /// No functions. No memory is taken yet.
    pub fn new(alloc: Global) -> Self
        ensures { result.all.items ≡ [] }
    {
        Functions {
            all: Vec::new(alloc),
            in_file: IndexMap::new(alloc),
            external: IndexMap::new(alloc),
        }
    }

    /// Puts a function behind the others. An error leaves them as they were.
    pub fn push(&mut self, function: &'u TypedFunction<'a>) -> Result<(), AllocError>
        requires { length self.old.all.items + 1 < 2 ^ 32 }
        ensures { MatchResult result (λ _. defined_by self.new.all.items ≡ defined_by self.old.all.items ++ (function_of function.now ∷ [])) (λ _. self.new.all.items ≡ self.old.all.items) }
    {
        let position = self.all.len() as u32;
        self.all.reserve(1)?;
        self.in_file.reserve(1)?;
        self.external.reserve(1)?;
        note_in_file(&mut self.in_file, function.file, function.name, position)?;
        note_external(&mut self.external, function.own, function.name, position)?;
        self.all.push(function)?;
        Ok(())
    }

    /// The body that a name has which is called in a file: the file's own, else the one with external linkage.
    pub fn body_of(&self, file: u16, name: u32) -> Option<FnId>
        ensures { option_map (λ f. f.number) result ≡ body_of file name (defined_by self.now.all.items) }
    {
        if let Some(number) = self.in_file.get(&(file, name)).copied() {
            return Some(FnId { number });
        }
        match self.external.get(&name).copied() {
            Some(number) => Some(FnId { number }),
            None => None,
        }
    }

    /// Whether a function can't stand behind these, since one of them has its name too, and is in its file, or both have
    /// external linkage.
    pub fn repeats(&self, function: &TypedFunction) -> bool
        ensures { result ≡ repeats (defined_by self.now.all.items) (function_of function.now) }
    {
        if self.in_file.contains_key(&(function.file, function.name)) {
            return true;
        }
        !function.own && self.external.contains_key(&function.name)
    }
}
