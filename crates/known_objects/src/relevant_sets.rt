//! The relevant objects of a program's functions under a checker, as sets.

ghost use Rattle.std.specs.Prelude.{◌≡◌, ◌≤◌, Contains, map, IfOk};
ghost use Rattle.std.specs.List.{AllZip};
ghost use Rattle.c_objects.specs.Objects.{Object as Seen};
ghost use Rattle.function_tables.specs.Tables.{AreTables};
ghost use Rattle.known_objects.specs.RelevantSets.{AreRelevant};
ghost use Rattle.least_set.specs.Logs.{IsExactly};
ghost use Rattle.path_model.specs.CheckerModel.Reports.{Checker};
ghost use Rattle.typed_unit.specs.Texts.{texts_of};

use call_graph::Program;
use function_tables::FunctionTable;
use indexmap::IndexSet;
use objects::{Object, copy};
use relevant::all_relevant_objects;
use std::alloc::{AllocError, Global};

// The set of these objects.
fn set_of(alloc: Global, objects: &[Object]) -> Result<IndexSet<Object>, AllocError>
    ensures { IfOk result (λ set. IsExactly set.keys (Contains objects.now)) }
{
    let mut set = IndexSet::new(alloc);
    for object in objects {
        set.insert(copy(object))?;
    }
    Ok(set)
}

// The sets of these lists.
fn sets_of(alloc: Global, lists: &[Vec<Object>]) -> Result<Vec<IndexSet<Object>>, AllocError>
    ensures { IfOk result (λ sets. AllZip (λ keys objects. IsExactly {M = Seen} keys (Contains objects)) (map (λ s. s.keys) sets.items) (map (λ os. os.items) lists.now)) }
{
    let mut sets = Vec::new(alloc);
    for list in lists {
        sets.push(set_of(alloc, list.as_slice())?)?;
    }
    Ok(sets)
}

/// The relevant objects of each function of a program under a checker, by the function's number: all that may matter to a rule, from whatever
/// state. Objects have at most `depth` steps. The only fault is want of memory.
pub fn all_relevant_sets<'u, 'a>(
    alloc: Global,
    program: &Program<'u, 'a>,
    tables: &[FunctionTable<'u, 'a>],
    depth: u8,
) -> Result<Vec<IndexSet<Object>>, AllocError>
    requires { depth ≤ 8 }
    ensures { IfOk result (λ sets. (c : Checker) → c.depth ≡ depth → AreTables c.machine c.depth (texts_of program.now.units.items) tables.now → ∥ AreRelevant c (texts_of program.now.units.items) (map (λ s. s.keys) sets.items) ∥₁) }
{
    let lists = all_relevant_objects(alloc, program, tables, depth)?;
    sets_of(alloc, lists.as_slice())
}
