//! The list of reports of one checker.

ghost use Rattle.std.specs.Prelude.{◌≤◌, IfOk, [], ◌∷◌, map};
ghost use Rattle.flow_graph.specs.Seen.{graph_in};
ghost use Rattle.path_model.specs.CheckerGraphs.Graphs.{AreGraphs};
ghost use Rattle.path_model.specs.CheckerPrograms.Reported.{AreReports};
ghost use Rattle.typed_unit.specs.Texts.{texts_of};
ghost use Rattle.ordered_reports.specs.Reporting.{checker_of};

use crate::checked_programs::reports_of;
use call_graph::Program;
use flow_graph::Graph;
use metal_tree::Machine;
use mx_base::Names;
use report_model::{Report, sorted};
use std::alloc::{AllocError, Global};

/// The list of reports of a checker over a program: the error transitions that it takes on some path from some root, in the order in
/// which they are printed, each once. The number is the checker's place among those of the command, from 0 on, the names have the texts
/// of all names, and objects have at most `depth` selectors. The graphs are those of the program's functions. The only fault is want of memory.
pub fn reports<'u, 'a>(
    alloc: Global,
    program: &Program<'u, 'a>,
    graphs: &'u [Graph<'a>],
    machine: &Machine<'u>,
    number: u16,
    names: &Names,
    depth: u8,
) -> Result<Vec<Report>, AllocError>
    requires deep { depth ≤ 8 }
    requires graphs { ∥ AreGraphs (texts_of program.now.units.items) (map (λ g. graph_in g) graphs.now) ∥₁ }
    ensures { IfOk result (λ list. ∥ AreReports (checker_of number machine.now names.now depth ∷ []) (texts_of program.now.units.items) list.items ∥₁) }
{
    let found = reports_of(alloc, program, graphs, machine, number, names, depth)?;
    sorted(alloc, found)
}
