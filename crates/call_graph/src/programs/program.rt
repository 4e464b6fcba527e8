//! Programs.

ghost use Rattle.std.specs.Prelude.{◌≡◌, ◌<◌, ◌^◌, length, None, Some, IfSome, slice_get};
ghost use Rattle.std.specs.Borrow.{Bor};
ghost use Rattle.std.specs.Option.{option_map};
ghost use Rattle.c_tree.specs.Views.{node_of, nodes_of};
ghost use Rattle.type_rules.specs.Roles.{Role};
ghost use Rattle.type_rules.specs.Scopes.{Scopes};
ghost use Rattle.call_graph.specs.OfPrograms.Bodies.{body_of};
ghost use Rattle.call_graph.specs.OfPrograms.Calls.{body_called, body_called_at, table_in};
ghost use Rattle.call_graph.specs.OfPrograms.Definitions.{AreNumbered, defined_by, definitions, kept_in, trees_in};
ghost use Rattle.call_graph.specs.OfPrograms.Repeats.{AreApart, link_fault};
ghost use Rattle.typed_unit.specs.declared.typed_unit.TypedUnit.{TypedUnit};
ghost use Rattle.typed_unit.specs.Functions.{function_of};
ghost use Rattle.typed_unit.specs.Places.{StandsAt};

use crate::programs::callees::called_name;
use crate::programs::functions::{FnId, Functions};
use crate::programs::theorems::units_are_listed;
use c_tree::Tree;
use typed_unit::{TypedFunction, TypedUnit};

/// A program: typed units, each with the number of its file as its position, and all functions that they define in source order,
/// fewer than 2^32. No two bodies of one name stand in one file, or have external linkage (ISO 9899:1990, 6.7).
#[derive(Drop)]
pub struct Program<'u, 'a> {
    pub units: Vec<&'u TypedUnit<'a>>,
    functions: Functions<'u, 'a>,
    ghost numbered: { AreNumbered units.items },
    ghost listed: { ∥ defined_by functions.all.items ≡ definitions (trees_in units.items) ∥₁ },
    ghost few: { length (definitions (trees_in units.items)) < 2 ^ 32 },
    ghost apart: { AreApart (definitions (trees_in units.items)) },
}

impl<'u, 'a> Program<'u, 'a> {
    /// The program of these units, whose functions are these.
    pub fn new(units: Vec<&'u TypedUnit<'a>>, functions: Functions<'u, 'a>) -> Self
        requires numbered { AreNumbered units.items }
        requires listed { defined_by functions.all.items ≡ kept_in units.items }
        requires few { length (definitions (trees_in units.items)) < 2 ^ 32 }
        requires linked { link_fault (definitions (trees_in units.items)) ≡ None }
        ensures { result.units ≡ units.entry }
    {
        units_are_listed();
        Program { units, functions }
    }

    /// The unit with this number.
    pub fn unit(&self, file: u16) -> &'u TypedUnit<'a>
        requires { file < length self.now.units.items }
        ensures { slice_get self.now.units.items file ≡ Some result }
    {
        self.units[file as usize]
    }

    /// How many functions there are.
    pub fn count(&self) -> u32
        ensures { result ≡ length (definitions (trees_in self.now.units.items)) }
    {
        self.functions.all.len() as u32
    }

    /// The function with this number.
    pub fn function(&self, f: FnId) -> &'u TypedFunction<'a>
        requires { f.number < length (definitions (trees_in self.now.units.items)) }
        ensures defined { ∥ slice_get (definitions (trees_in self.now.units.items)) f.number ≡ Some (function_of result.now) ∥₁ }
        ensures placed { result.now.file < length self.now.units.items }
    {
        self.functions.all[f.number as usize]
    }

    /// The body of a name that is called in a file: the file's own, else the one with external linkage.
    pub fn body_of(&self, file: u16, name: u32) -> Option<FnId>
        ensures body { option_map (λ f. f.number) result ≡ body_of file name (definitions (trees_in self.now.units.items)) }
        ensures within { IfSome result (λ f. f.number < length (definitions (trees_in self.now.units.items))) }
    {
        self.functions.body_of(file, name)
    }

    /// The body that a call calls, which stands in the unit with this number: its callee, without parentheses, is the name of a
    /// function with a body, and no variable. It takes no memory.
    pub fn body_called(&self, file: u16, call: &Tree) -> Option<FnId>
        requires { file < length self.now.units.items }
        ensures kept { option_map (λ f. f.number) result ≡ body_called (table_in self.now.units.items file) file (definitions (trees_in self.now.units.items)) (node_of call.now) }
        ensures placed { (u : Bor TypedUnit) (v : Scopes) (r : Role) → slice_get self.now.units.items file ≡ Some u → StandsAt (nodes_of u.now.unit.chunks) v r (node_of call.now) → option_map (λ f. f.number) result ≡ body_called_at v file (definitions (trees_in self.now.units.items)) (node_of call.now) }
        ensures within { IfSome result (λ f. f.number < length (definitions (trees_in self.now.units.items))) }
    {
        match called_name(self.unit(file), call) {
            None => None,
            Some(name) => self.body_of(file, name),
        }
    }
}
