//! The relevant objects of functions, and those that are followed.

ghost use Rattle.std.specs.Prelude.{◌≡◌, ◌≤◌, map, IfOk};
ghost use Rattle.path_model.specs.CheckerModel.Reports.{Checker};
ghost use Rattle.path_model.specs.CheckerPrograms.Relevant.{Relevant, Followed};
ghost use Rattle.typed_unit.specs.Texts.{texts_of};
ghost use Rattle.function_tables.specs.Tables.{AreTables};
ghost use Rattle.relevant.specs.RelevantLists.Lists.{AreLists};
ghost use Rattle.relevant.specs.RelevantSteps.Families.{RelevantTo};

use crate::bound_members::bound;
use crate::program_rows::rows_of;
use crate::relevant_lists::filing::filed;
use crate::relevant_rows::all_relevant;
use call_graph::Program;
use function_tables::FunctionTable;
use objects::Object;
use state_tuples::RuleSources;
use std::alloc::{AllocError, Global};

// The objects in each function that are relevant to rules which begin in these states.
fn relevant_to<'u, 'a>(
    alloc: Global,
    program: &Program<'u, 'a>,
    tables: &[FunctionTable<'u, 'a>],
    depth: u8,
    sources: RuleSources,
) -> Result<Vec<Vec<Object>>, AllocError>
    requires { depth ≤ 8 }
    ensures { IfOk result (λ lists. (c : Checker) → c.depth ≡ depth → AreTables c.machine c.depth (texts_of program.now.units.items) tables.now → ∥ AreLists c (texts_of program.now.units.items) (RelevantTo sources c (texts_of program.now.units.items)) (map (λ os. os.items) lists.items) ∥₁) }
{
    let rows = rows_of(alloc, program, tables)?;
    let bound = bound(alloc, program, tables, sources)?;
    let found = all_relevant(alloc, rows.as_slice(), bound.as_slice(), depth)?;
    filed(alloc, program.count(), found.as_slice())
}

/// The relevant objects of each function of a program under a checker, by the function's number: all that may matter to a rule, from whatever
/// state. Objects have at most `depth` steps. The only fault is want of memory.
pub fn all_relevant_objects<'u, 'a>(
    alloc: Global,
    program: &Program<'u, 'a>,
    tables: &[FunctionTable<'u, 'a>],
    depth: u8,
) -> Result<Vec<Vec<Object>>, AllocError>
    requires { depth ≤ 8 }
    ensures { IfOk result (λ lists. (c : Checker) → c.depth ≡ depth → AreTables c.machine c.depth (texts_of program.now.units.items) tables.now → ∥ AreLists c (texts_of program.now.units.items) (Relevant c (texts_of program.now.units.items)) (map (λ os. os.items) lists.items) ∥₁) }
{
    relevant_to(alloc, program, tables, depth, RuleSources::AnyState)
}

/// The objects that are followed in each function, by the function's number: those of the relevant ones that rules bind which begin in a
/// global state, and what is linked to them. All others are unknown on every path, and no rule takes one with a report. Objects have at most
/// `depth` steps. The only fault is want of memory.
pub fn followed_objects<'u, 'a>(
    alloc: Global,
    program: &Program<'u, 'a>,
    tables: &[FunctionTable<'u, 'a>],
    depth: u8,
) -> Result<Vec<Vec<Object>>, AllocError>
    requires { depth ≤ 8 }
    ensures { IfOk result (λ lists. (c : Checker) → c.depth ≡ depth → AreTables c.machine c.depth (texts_of program.now.units.items) tables.now → ∥ AreLists c (texts_of program.now.units.items) (Followed c (texts_of program.now.units.items)) (map (λ os. os.items) lists.items) ∥₁) }
{
    relevant_to(alloc, program, tables, depth, RuleSources::GlobalStates)
}
