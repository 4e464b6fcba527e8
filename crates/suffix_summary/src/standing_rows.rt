//! The rows of a program, which stand for it.

ghost use Rattle.std.specs.Prelude.{IfOk};
ghost use Rattle.function_tables.specs.EngineTables.Known.{AreKnown};
ghost use Rattle.least_set.specs.Logs.{IsOnce};
ghost use Rattle.suffix_summary.specs.StandingRows.{AreStanding};

use function_tables::Tables;
use numbered_engine::ProgramRows;
use numbered_program::{ObjectStates, program_rows, rows_stand_for_programs};
use std::alloc::{AllocError, Global};

// No two states have one number.
fn are_distinct(states: &ObjectStates)
    ensures { IsOnce states.now.states.keys }
{
    let _count = states.states.len();
}

/// The rows of a program under a checker: they stand for it, as far as its tables are known. The only fault is want of memory.
pub(crate) fn standing_rows(alloc: Global, tables: &Tables) -> Result<ProgramRows, AllocError>
    ensures { IfOk result (λ p. AreKnown tables.now → ∥ AreStanding tables.now p ∥₁) }
{
    rows_stand_for_programs();
    let states = ObjectStates::new(alloc, tables.machine)?;
    are_distinct(&states);
    program_rows(alloc, tables, &states)
}
