//! Reports of one checker after the other.

ghost use Rattle.std.specs.Prelude.{◌≤◌, ◌<◌, ◌↔◌, ◌⊎◌, Contains, IfOk, OnOk, length, map, get_or};
ghost use Rattle.flow_graph.specs.Seen.{graph_in};
ghost use Rattle.path_model.specs.CheckerGraphs.Graphs.{AreGraphs};
ghost use Rattle.path_model.specs.CheckerPrograms.Reported.{AreReports, IsReported};
ghost use Rattle.typed_unit.specs.Texts.{texts_of};
ghost use Rattle.command.specs.CheckerReports.Checkers.{checkers_in};
ghost use Rattle.metal_tree.specs.Whole.{machine_view};
ghost use Rattle.report_model.specs.declared.report.Report as report;

use call_graph::Program;
use flow_graph::Graph;
use metal_tree::Machine;
use mx_base::Names;
use report_model::{Report, sorted};
use std::alloc::{AllocError, Global};
use suffix_summary::reports;

// The reports of all checkers, in no order.
fn gathered<'u, 'a>(
    alloc: Global,
    program: &Program<'u, 'a>,
    graphs: &'u [Graph<'a>],
    machines: &[Machine<'u>],
    names: &Names,
    depth: u8,
) -> Result<Vec<Report>, AllocError>
    requires deep { depth ≤ 8 }
    requires few { length machines.now ≤ 65535 }
    requires graphs { ∥ AreGraphs (texts_of program.now.units.items) (map (λ g. graph_in g) graphs.now) ∥₁ }
    ensures { IfOk result (λ list. ∥ ((r : report.Report) → Contains list.items r ↔ IsReported (checkers_in (map machine_view machines.now) depth names.now) (texts_of program.now.units.items) r) ∥₁) }
{
    let mut all = Vec::new(alloc);
    for (number, machine) in machines.iter().enumerate() {
        let mut more = reports(alloc, program, graphs, machine, number as u16, names, depth)?;
        all.append(&mut more)?;
    }
    Ok(all)
}

/// The reports of checkers over a program, in the order in which they are printed, each once. The checkers are numbered from 0 on in
/// the order of their machines, and their objects have at most `depth` selectors. The only fault is want of memory.
pub fn all_reports<'u, 'a>(
    alloc: Global,
    program: &Program<'u, 'a>,
    graphs: &'u [Graph<'a>],
    machines: &[Machine<'u>],
    names: &Names,
    depth: u8,
) -> Result<Vec<Report>, AllocError>
    requires deep { depth ≤ 8 }
    requires few { length machines.now ≤ 65535 }
    requires graphs { ∥ AreGraphs (texts_of program.now.units.items) (map (λ g. graph_in g) graphs.now) ∥₁ }
    ensures { IfOk result (λ list. ∥ AreReports (checkers_in (map machine_view machines.now) depth names.now) (texts_of program.now.units.items) list.items ∥₁) }
{
    let all = gathered(alloc, program, graphs, machines, names, depth)?;
    sorted(alloc, all)
}
