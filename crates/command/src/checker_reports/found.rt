//! What the checkers of a request find.

ghost use Rattle.std.specs.Prelude.{◌≤◌, IfOk, length, map};
ghost use Rattle.path_model.specs.CheckerPrograms.Reported.{AreReports};
ghost use Rattle.typed_unit.specs.Texts.{texts_of};
ghost use Rattle.command.specs.CheckerReports.Checkers.{checkers_in};
ghost use Rattle.command.specs.Ways.Counts.{IsCountFor};
ghost use Rattle.metal_tree.specs.Whole.{machine_view};

use crate::checker_reports::entries::counted_reports;
use crate::checker_reports::reports::all_reports;
use call_graph::Program;
use metal_tree::Machine;
use mx_base::{Names, Steps};
use report_model::Report;
use std::alloc::{AllocError, Global};
use suffix_summary::build_graphs;

/// What checkers find.
#[derive(Drop)]
pub struct Found {
    /// The reports, in the order in which they are printed, each once.
    pub reports: Vec<Report>,
    /// How many entries the logs of the checkers have, where statistics are asked for.
    pub entries: Option<u64>,
}

/// The reports of checkers over a program, and how many entries their logs have, where statistics are asked for. Without them each checker
/// follows no more objects than its reports ask for. All checkers share the graphs of functions. The only fault is want of memory.
pub fn all_found<'u, 'a>(
    alloc: Global,
    program: &Program<'u, 'a>,
    machines: &[Machine<'u>],
    names: &Names,
    depth: u8,
    stats: bool,
) -> Result<Found, AllocError>
    requires deep { depth ≤ 8 }
    requires few { length machines.now ≤ 65535 }
    ensures reports { IfOk result (λ found. ∥ AreReports (checkers_in (map machine_view machines.now) depth names.now) (texts_of program.now.units.items) found.reports.items ∥₁) }
    ensures counted { IfOk result (λ found. IsCountFor stats (checkers_in (map machine_view machines.now) depth names.now) (texts_of program.now.units.items) found.entries) }
{
    let graphs = build_graphs(alloc, program)?;
    if stats {
        let mut steps = Steps::new();
        let reports = counted_reports(
            alloc,
            &*program,
            graphs.as_slice(),
            &*machines,
            names,
            depth,
            &mut steps,
        )?;
        return Ok(Found {
            reports,
            entries: Some(steps.count()),
        });
    }
    let reports = all_reports(
        alloc,
        &*program,
        graphs.as_slice(),
        &*machines,
        names,
        depth,
    )?;
    Ok(Found {
        reports,
        entries: None,
    })
}
