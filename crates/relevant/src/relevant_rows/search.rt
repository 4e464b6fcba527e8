//! The search over the rows of a program.

ghost use Rattle.std.specs.Prelude.{◌≡◌, ◌↔◌, ◌≤◌, ℕ, List, Contains, Some, IfOk};
ghost use Rattle.c_objects.specs.Objects.{Object as Seen};
ghost use Rattle.flow_graph.specs.CPaths.Building.{Graph};
ghost use Rattle.path_model.specs.CheckerGraphs.Graphs.{AreGraphs, AreApartPlaces, function_at};
ghost use Rattle.path_model.specs.CheckerModel.Happenings.{Function};
ghost use Rattle.path_model.specs.CheckerModel.Reports.{Checker};
ghost use Rattle.path_model.specs.CheckerPrograms.Texts.{functions_in};
ghost use Rattle.typed_unit.specs.Texts.{Text};
ghost use Rattle.least_set.specs.Logs.{IsExactly, IsOnce};
ghost use Rattle.relevant.specs.RelevantRows.Rows.{AreRows};
ghost use Rattle.relevant.specs.RelevantSteps.Families.{RelevantTo};
ghost use Rattle.relevant.specs.RelevantSteps.Steps.{Base};
ghost use Rattle.state_tuples.specs.declared.applied_rules.sources.RuleSources.{RuleSources};

use crate::relevant_objects::{FunctionRow, relevant};
use indexmap::IndexSet;
use objects::Object;
use std::alloc::{AllocError, Global};

/// The objects of a program's functions that are relevant to rules which begin in some states, by the rows of its functions and the objects
/// that such rules bind in them: each with the number of its function, and each once. The only fault is want of memory.
pub fn all_relevant(
    alloc: Global,
    rows: &[FunctionRow],
    bound: &[(u32, Object)],
    depth: u8,
) -> Result<IndexSet<(u32, Object)>, AllocError>
    requires { depth ≤ 8 }
    ensures relevant { IfOk result (λ found. (w : RuleSources) (c : Checker) (ts : List Text) (gs : List Graph) → depth ≡ c.depth → AreGraphs ts gs → AreApartPlaces (functions_in ts) → AreRows c ts gs rows.now → IsExactly bound.now (Base c ts gs w) → (n : ℕ) (f : Function) (o : Seen) → function_at ts n ≡ Some f → Contains found.keys (n, o) ↔ RelevantTo w c ts f o) }
    ensures once { IfOk result (λ found. IsOnce found.keys) }
{
    relevant(alloc, rows, bound, depth)
}
