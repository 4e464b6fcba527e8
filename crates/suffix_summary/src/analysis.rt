//! The analysis of a program under a checker with its log.

ghost use Rattle.std.specs.Prelude.{◌≡◌, ◌≤◌, ◌+◌, ◌-◌, ◌^◌, [], ◌∷◌, length, map, min, IfOk};
ghost use Rattle.flow_graph.specs.Seen.{graph_in};
ghost use Rattle.ordered_reports.specs.Reporting.{checker_of};
ghost use Rattle.path_model.specs.CheckerGraphs.Graphs.{AreGraphs};
ghost use Rattle.path_model.specs.CheckerPrograms.Reported.{AreReports};
ghost use Rattle.suffix_summary.specs.Reading.{ReadAsLog};
ghost use Rattle.typed_unit.specs.Texts.{texts_of};

use crate::edge_reports::all_shown;
use crate::known_tables::KnownTables;
use crate::standing_rows::standing_rows;
use call_graph::Program;
use flow_graph::Graph;
use function_tables::{Tables, build_tables};
use indexmap::IndexSet;
use known_objects::all_relevant_sets;
use metal_tree::Machine;
use mx_base::{Names, Steps};
use numbered_engine::{EdgeLog, NumberedEngine, tabulate};
use objects::Object;
use report_model::{Report, sorted};
use root_functions::roots;
use std::alloc::{AllocError, Global};
use std::marker::PhantomData;

/// What the analysis of a program under a checker found.
#[derive(Drop)]
pub struct Analysis<L> {
    /// The error transitions that the checker takes on some path from some root, in the order in which they are printed, each once.
    pub reports: Vec<Report>,
    /// The log, by numbers: each entry once, in the order in which they were found.
    pub log: EdgeLog,
    /// The relevant objects of each function, by its number. One that stands at a place has the next number, since 0 stands for no object.
    pub objects: Vec<IndexSet<Object>>,
    /// The count of steps that was handed in, and one more for each entry of the log.
    pub steps: Steps<L>,
}

/// The analysis of a program under a checker over all relevant objects, with its log. The number is the checker's place among those of the command,
/// from 0 on, the names have the texts of all names, and objects have at most `depth` selectors. The graphs are those of the program's functions.
/// The only fault is want of memory.
pub fn analyse<'u, 'a, L>(
    alloc: Global,
    program: &Program<'u, 'a>,
    graphs: &'u [Graph<'a>],
    machine: &Machine<'u>,
    number: u16,
    names: &Names,
    depth: u8,
    steps: Steps<L>,
) -> Result<Analysis<L>, AllocError>
    requires deep { depth ≤ 8 }
    requires graphs { ∥ AreGraphs (texts_of program.now.units.items) (map (λ g. graph_in g) graphs.now) ∥₁ }
    ensures reports { IfOk result (λ found. ∥ AreReports (checker_of number machine.now names.now depth ∷ []) (texts_of program.now.units.items) found.reports.items ∥₁) }
    ensures log { IfOk result (λ found. ∥ ReadAsLog (checker_of number machine.now names.now depth) (texts_of program.now.units.items) (map (λ g. graph_in g) graphs.now) (map (λ s. s.keys) found.objects.items) found.log.keys ∥₁) }
    ensures steps { IfOk result (λ found. found.steps.count ≡ min (steps.count + length found.log.keys) (2 ^ 64 - 1)) }
{
    let functions = build_tables(alloc, program, graphs, machine, depth)?;
    let roots = roots(alloc, program, machine)?;
    let objects = all_relevant_sets(alloc, program, functions.as_slice(), depth)?;
    let tables = Tables {
        program,
        machine,
        number,
        names,
        depth,
        functions: functions.as_slice(),
        objects: objects.as_slice(),
        roots: roots.as_slice(),
    };
    let known = KnownTables {
        tables,
        units: PhantomData,
    };
    let rows = standing_rows(alloc, &known.tables)?;
    let mut engine = NumberedEngine::counting(alloc, &rows, steps);
    let log = tabulate(alloc, &mut engine)?;
    let shown = all_shown(alloc, &known.tables, &engine, &log)?;
    let reports = sorted(alloc, shown)?;
    let steps = engine.into_steps();
    Ok(Analysis {
        reports,
        log,
        objects,
        steps,
    })
}
