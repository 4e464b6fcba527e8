//! The reports of a program.

ghost use Rattle.std.specs.Prelude.{◌↔◌, Contains, IfOk};
ghost use Rattle.path_model.specs.CheckerModel.Checkers.{model};
ghost use Rattle.path_model.specs.CheckerPrograms.Paths.{program};
ghost use Rattle.function_tables.specs.EngineTables.Known.{checker_in, texts_in, graphs_in, objects_in};
ghost use Rattle.path_edges.specs.Relations.{IsClosedLog, IsLeastLog};
ghost use Rattle.block_flows.specs.Masks.{AreEnough};
ghost use Rattle.path_theory.specs.Paths.{Reported};
ghost use Rattle.report_model.specs.declared.report.Report.{Report as Said};

use crate::edge_reports::all_shown;
use crate::tabulation_engine::caching_engine::CachingEngine;
use crate::tabulation_engine::engine::Engine;
use indexmap::IndexSet;
use least_set::least_caching;
use path_edges::{Edge, least_edges_report};
use report_model::Report;
use std::alloc::{AllocError, Global};

/// The path edges of a program under a checker: what follows by the rules of tabulation, and nothing else.
pub(crate) fn least_edges(alloc: Global, engine: &Engine) -> Result<IndexSet<Edge>, AllocError>
    ensures closed { IfOk result (λ log. IsClosedLog (checker_in engine.now.tables) (texts_in engine.now.tables) (graphs_in engine.now.tables) (objects_in engine.now.tables) log.keys) }
    ensures only { IfOk result (λ log. IsLeastLog (checker_in engine.now.tables) (texts_in engine.now.tables) (graphs_in engine.now.tables) (objects_in engine.now.tables) log.keys) }
{
    let mut rules = CachingEngine::new(alloc, engine);
    least_caching(alloc, &mut rules)
}

/// The reports of a program under a checker, where it is enough to follow the objects that the engine follows: exactly those that some path of
/// the program takes, in no order, and one that several edges show as often. The only fault is want of memory.
pub fn reported(alloc: Global, engine: &Engine) -> Result<Vec<Report>, AllocError>
    requires { ∥ AreEnough (checker_in engine.now.tables) (texts_in engine.now.tables) (graphs_in engine.now.tables) (objects_in engine.now.tables) ∥₁ }
    ensures { IfOk result (λ list. ∥ ((r : Said) → Contains list.items r ↔ Reported (model (checker_in engine.now.tables)) (program (checker_in engine.now.tables) (texts_in engine.now.tables)) r) ∥₁) }
{
    least_edges_report();
    let log = least_edges(alloc, engine)?;
    all_shown(alloc, &engine.tables, log.as_slice())
}
