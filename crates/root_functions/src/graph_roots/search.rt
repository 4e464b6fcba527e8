//! The search for roots.

ghost use Rattle.std.specs.Prelude.{◌≡◌, ◌<◌, ◌^◌, [], false, length, IfOk, OnOk};
ghost use Rattle.path_model.specs.CheckerPrograms.Roots.{IsUncalled, IsRoot};
ghost use Rattle.root_functions.specs.GraphRoots.Graphs.{LeadsIn, StaysWithin, Entered};
ghost use Rattle.root_functions.specs.GraphRoots.Listed.{AreListed};
ghost use Rattle.root_functions.specs.GraphRoots.Searches.{unless, AreReached, HasUncalled, HasOthers};
ghost use Rattle.least_set.specs.Logs.{IsExactly};

use crate::graph_roots::callees::Callees;
use crate::graph_roots::reaching::{entered, visit};
use indexmap::IndexSet;
use std::alloc::{AllocError, Global};

// The roots that were found, in order, and all functions that they reach.
#[derive(Drop)]
struct Search {
    roots: Vec<u32>,
    reached: IndexSet<u32>,
}

impl Search {
    // No roots. No memory is taken yet.
    fn new(alloc: Global) -> Search
        ensures roots { result.roots.items ≡ [] }
        ensures reached { result.reached.keys ≡ [] }
    {
        Search {
            roots: Vec::new(alloc),
            reached: IndexSet::new(alloc),
        }
    }

    // Makes a function a root.
    fn add(&mut self, callees: &Vec<Callees>, root: u32) -> Result<(), AllocError>
        requires stays { StaysWithin callees.now.items }
        requires root { root < length callees.now.items }
        requires reached { AreReached callees.now.items self.old.roots.items self.old.reached.keys }
        ensures roots { OnOk result (self.new.roots.items ≡ unless false self.old.roots.items root) }
        ensures reached { OnOk result (AreReached callees.now.items self.new.roots.items self.new.reached.keys) }
    {
        self.roots.push(root)?;
        visit(callees, &mut self.reached, root)?;
        Ok(())
    }

    // The same, unless it is known.
    fn add_unless(
        &mut self,
        callees: &Vec<Callees>,
        known: bool,
        root: u32,
    ) -> Result<(), AllocError>
        requires stays { StaysWithin callees.now.items }
        requires root { root < length callees.now.items }
        requires reached { AreReached callees.now.items self.old.roots.items self.old.reached.keys }
        ensures roots { OnOk result (self.new.roots.items ≡ unless known self.old.roots.items root) }
        ensures reached { OnOk result (AreReached callees.now.items self.new.roots.items self.new.reached.keys) }
    {
        if known {
            return Ok(());
        }
        self.add(callees, root)
    }

    // Adds the functions to which none leads.
    fn add_uncalled(
        &mut self,
        callees: &Vec<Callees>,
        called: &IndexSet<u32>,
    ) -> Result<(), AllocError>
        requires few { length callees.now.items < 2 ^ 32 }
        requires stays { StaysWithin callees.now.items }
        requires called { IsExactly called.now.keys (Entered callees.now.items) }
        requires none { self.old.roots.items ≡ [] }
        requires reached { AreReached callees.now.items self.old.roots.items self.old.reached.keys }
        ensures uncalled { OnOk result (HasUncalled callees.now.items (length callees.now.items) self.new.roots.items) }
        ensures reached { OnOk result (AreReached callees.now.items self.new.roots.items self.new.reached.keys) }
    {
        for i in 0..callees.len() {
            let function = i as u32;
            let known = called.contains(&function);
            self.add_unless(callees, known, function)?;
        }
        Ok(())
    }

    // Adds the first function that no root reaches, as long as there is one.
    fn add_others(&mut self, callees: &Vec<Callees>) -> Result<(), AllocError>
        requires few { length callees.now.items < 2 ^ 32 }
        requires stays { StaysWithin callees.now.items }
        requires uncalled { HasUncalled callees.now.items (length callees.now.items) self.old.roots.items }
        requires reached { AreReached callees.now.items self.old.roots.items self.old.reached.keys }
        ensures { OnOk result (HasOthers callees.now.items (length callees.now.items) self.old.roots.items self.new.roots.items) }
    {
        for i in 0..callees.len() {
            let function = i as u32;
            let known = self.reached.contains(&function);
            self.add_unless(callees, known, function)?;
        }
        Ok(())
    }
}

/// The roots of functions that lead to each other, where each has its position as its number: first the functions to which none leads, in
/// order, and then, as long as functions remain that no root reaches, the first of them. The work is linear in the number of
/// functions and of those that they lead to.
pub fn roots(alloc: Global, callees: &Vec<Callees>) -> Result<Vec<u32>, AllocError>
    requires few { length callees.now.items < 2 ^ 32 }
    requires stays { StaysWithin callees.now.items }
    ensures { IfOk result (λ roots. AreListed (IsUncalled (LeadsIn callees.now.items)) (IsRoot (LeadsIn callees.now.items)) (length callees.now.items) roots.items) }
{
    let called = entered(alloc, callees)?;
    let mut search = Search::new(alloc);
    search.add_uncalled(callees, &called)?;
    search.add_others(callees)?;
    Ok(search.roots)
}
