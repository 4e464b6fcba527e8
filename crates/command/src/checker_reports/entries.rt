//! Reports of one checker after the other, and how many entries their logs have.

ghost use Rattle.std.specs.Prelude.{◌≤◌, ◌↔◌, [], ◌∷◌, Contains, IfOk, OnOk, length, map};
ghost use Rattle.flow_graph.specs.Seen.{graph_in};
ghost use Rattle.path_model.specs.CheckerGraphs.Graphs.{AreGraphs};
ghost use Rattle.path_model.specs.CheckerPrograms.Reported.{AreReports, IsReported};
ghost use Rattle.typed_unit.specs.Texts.{texts_of};
ghost use Rattle.command.specs.CheckerReports.Checkers.{checkers_in};
ghost use Rattle.command.specs.Counted.{CountLogs, CountsLog};
ghost use Rattle.metal_tree.specs.Whole.{machine_view};
ghost use Rattle.ordered_reports.specs.Reporting.{checker_of};
ghost use Rattle.report_model.specs.declared.report.Report as report;

use call_graph::Program;
use flow_graph::Graph;
use metal_tree::Machine;
use mx_base::{Names, Steps};
use report_model::{Report, sorted};
use std::alloc::{AllocError, Global};
use std::mem::replace;
use suffix_summary::{Analysis, analyse};

/// The entries of logs: what is counted.
pub(crate) struct LogEntries;

// The reports of one checker. The count rises by the length of its log.
fn one_log<'u, 'a>(
    alloc: Global,
    program: &Program<'u, 'a>,
    graphs: &'u [Graph<'a>],
    machine: &Machine<'u>,
    number: u16,
    names: &Names,
    depth: u8,
    steps: &mut Steps<LogEntries>,
) -> Result<Vec<Report>, AllocError>
    requires deep { depth ≤ 8 }
    requires graphs { ∥ AreGraphs (texts_of program.now.units.items) (map (λ g. graph_in g) graphs.now) ∥₁ }
    ensures reports { IfOk result (λ list. ∥ AreReports (checker_of number machine.now names.now depth ∷ []) (texts_of program.now.units.items) list.items ∥₁) }
    ensures log { OnOk result (∥ CountsLog (checker_of number machine.now names.now depth) (texts_of program.now.units.items) steps.old.count steps.new.count ∥₁) }
{
    let before = replace(steps, Steps::new());
    let found = analyse(
        alloc, program, graphs, machine, number, names, depth, before,
    )?;
    let Analysis {
        reports,
        log: _,
        objects: _,
        steps: after,
    } = found;
    *steps = after;
    Ok(reports)
}

// The reports of all checkers, in no order. The count rises by the lengths of their logs.
fn all_logs<'u, 'a>(
    alloc: Global,
    program: &Program<'u, 'a>,
    graphs: &'u [Graph<'a>],
    machines: &[Machine<'u>],
    names: &Names,
    depth: u8,
    steps: &mut Steps<LogEntries>,
) -> Result<Vec<Report>, AllocError>
    requires deep { depth ≤ 8 }
    requires few { length machines.now ≤ 65535 }
    requires graphs { ∥ AreGraphs (texts_of program.now.units.items) (map (λ g. graph_in g) graphs.now) ∥₁ }
    ensures reports { IfOk result (λ list. ∥ ((r : report.Report) → Contains list.items r ↔ IsReported (checkers_in (map machine_view machines.now) depth names.now) (texts_of program.now.units.items) r) ∥₁) }
    ensures logs { OnOk result (∥ CountLogs (checkers_in (map machine_view machines.now) depth names.now) (texts_of program.now.units.items) steps.old.count steps.new.count ∥₁) }
{
    let mut all = Vec::new(alloc);
    for (number, machine) in machines.iter().enumerate() {
        let mut more = one_log(
            alloc,
            program,
            graphs,
            machine,
            number as u16,
            names,
            depth,
            steps,
        )?;
        all.append(&mut more)?;
    }
    Ok(all)
}

/// The reports of checkers over a program, as `all_reports` gives them. The count rises by the lengths of their logs, one checker after
/// the other: the log of a checker has every entry of its blocks, over all objects that may matter.
pub(crate) fn counted_reports<'u, 'a>(
    alloc: Global,
    program: &Program<'u, 'a>,
    graphs: &'u [Graph<'a>],
    machines: &[Machine<'u>],
    names: &Names,
    depth: u8,
    steps: &mut Steps<LogEntries>,
) -> Result<Vec<Report>, AllocError>
    requires deep { depth ≤ 8 }
    requires few { length machines.now ≤ 65535 }
    requires graphs { ∥ AreGraphs (texts_of program.now.units.items) (map (λ g. graph_in g) graphs.now) ∥₁ }
    ensures reports { IfOk result (λ list. ∥ AreReports (checkers_in (map machine_view machines.now) depth names.now) (texts_of program.now.units.items) list.items ∥₁) }
    ensures logs { OnOk result (∥ CountLogs (checkers_in (map machine_view machines.now) depth names.now) (texts_of program.now.units.items) steps.old.count steps.new.count ∥₁) }
{
    let all = all_logs(alloc, program, graphs, machines, names, depth, steps)?;
    sorted(alloc, all)
}
