//! The reports of a program.

ghost use Rattle.std.specs.Prelude.{◌↔◌, Contains, IfOk};
ghost use Rattle.path_model.specs.CheckerModel.Checkers.{model};
ghost use Rattle.path_model.specs.CheckerPrograms.Paths.{program};
ghost use Rattle.function_tables.specs.EngineTables.Known.{checker_in, texts_in, graphs_in, objects_in};
ghost use Rattle.block_flows.specs.Masks.{AreEnough};
ghost use Rattle.path_theory.specs.Paths.{Reported};
ghost use Rattle.report_model.specs.declared.report.Report.{Report as Said};

use crate::edge_reports::all_shown;
use crate::known_tables::KnownTables;
use crate::standing_rows::standing_rows;
use numbered_engine::{NumberedEngine, tabulate};
use report_model::Report;
use std::alloc::{AllocError, Global};

/// The entries of blocks: what an engine's steps are.
#[derive(Drop)]
pub(crate) struct BlockEntries;

/// The reports of a program under a checker, where it is enough to follow the objects that the tables follow: exactly those that some path of
/// the program takes, in no order, and one that several edges show as often. The only fault is want of memory.
pub(crate) fn reported(alloc: Global, known: &KnownTables) -> Result<Vec<Report>, AllocError>
    requires { ∥ AreEnough (checker_in known.now.tables) (texts_in known.now.tables) (graphs_in known.now.tables) (objects_in known.now.tables) ∥₁ }
    ensures { IfOk result (λ list. ∥ ((r : Said) → Contains list.items r ↔ Reported (model (checker_in known.now.tables)) (program (checker_in known.now.tables) (texts_in known.now.tables)) r) ∥₁) }
{
    let rows = standing_rows(alloc, &known.tables)?;
    let mut engine: NumberedEngine<BlockEntries> = NumberedEngine::new(alloc, &rows);
    let log = tabulate(alloc, &mut engine)?;
    all_shown(alloc, &known.tables, &engine, &log)
}
