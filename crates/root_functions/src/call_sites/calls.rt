//! Calls that were found.

ghost use Rattle.std.specs.Prelude.{◌≡◌, ◌++◌, [], ◌∷◌, OnOk};
ghost use Rattle.c_tree.specs.Views.{node_of};
ghost use Rattle.root_functions.specs.CallSites.Calls.{nodes_at};

use c_tree::Tree;
use std::alloc::{AllocError, Global};

/// The calls that were found so far.
#[derive(Drop)]
pub(crate) struct Calls<'a> {
    pub(crate) found: Vec<&'a Tree<'a>>,
}

impl<'a> Calls<'a> {
    /// No calls. No memory is taken yet.
    pub(crate) fn new(alloc: Global) -> Calls<'a>
        ensures { nodes_at result.found.items ≡ [] }
    {
        Calls {
            found: Vec::new(alloc),
        }
    }

    /// Puts a call behind the others.
    pub(crate) fn add(&mut self, call: &'a Tree<'a>) -> Result<(), AllocError>
        ensures { OnOk result (nodes_at self.new.found.items ≡ nodes_at self.old.found.items ++ (node_of call.now ∷ [])) }
    {
        self.found.push(call)?;
        Ok(())
    }
}
