//! A program under a checker, from its trees to its reports.

ghost use Rattle.std.specs.Prelude.{◌≤◌, ◌↔◌, Contains, map, IfOk};
ghost use Rattle.flow_graph.specs.Seen.{graph_in};
ghost use Rattle.path_model.specs.CheckerGraphs.Graphs.{AreGraphs};
ghost use Rattle.path_model.specs.CheckerModel.Checkers.{model};
ghost use Rattle.path_model.specs.CheckerPrograms.Paths.{program as paths};
ghost use Rattle.typed_unit.specs.Texts.{texts_of};
ghost use Rattle.path_theory.specs.Paths.{Reported};
ghost use Rattle.ordered_reports.specs.Reporting.{checker_of};
ghost use Rattle.report_model.specs.declared.report.Report.{Report as Said};

use crate::followed_sets::followed_sets;
use crate::known_tables::KnownTables;
use crate::tabulated_reports::reported;
use call_graph::Program;
use flow_graph::Graph;
use function_tables::{Tables, build_tables};
use known_objects::empty_sets;
use metal_tree::Machine;
use mx_base::Names;
use report_model::Report;
use root_functions::roots;
use std::alloc::{AllocError, Global};
use std::marker::PhantomData;

/// The reports of a checker over a program: exactly those that some path of the program takes, in no order, and one may be there more than
/// once. The number is the checker's place among those of the command, from 0 on, the names have the texts of all names, and objects have at
/// most `depth` selectors. The graphs are those of the program's functions. The only fault is want of memory.
pub fn reports_of<'u, 'a>(
    alloc: Global,
    program: &Program<'u, 'a>,
    graphs: &'u [Graph<'a>],
    machine: &Machine<'u>,
    number: u16,
    names: &Names,
    depth: u8,
) -> Result<Vec<Report>, AllocError>
    requires deep { depth ≤ 8 }
    requires graphs { ∥ AreGraphs (texts_of program.now.units.items) (map (λ g. graph_in g) graphs.now) ∥₁ }
    ensures { IfOk result (λ list. ∥ ((r : Said) → Contains list.items r ↔ Reported (model (checker_of number machine.now names.now depth)) (paths (checker_of number machine.now names.now depth) (texts_of program.now.units.items)) r) ∥₁) }
{
    let functions = build_tables(alloc, program, graphs, machine, depth)?;
    let roots = roots(alloc, program, machine)?;
    let none = empty_sets(alloc, program.count())?;
    let bare = Tables {
        program,
        machine,
        number,
        names,
        depth,
        functions: functions.as_slice(),
        objects: none.as_slice(),
        roots: roots.as_slice(),
    };
    let first = KnownTables {
        tables: bare,
        units: PhantomData,
    };
    let followed = followed_sets(alloc, &first)?;
    let masked = Tables {
        program,
        machine,
        number,
        names,
        depth,
        functions: functions.as_slice(),
        objects: followed.as_slice(),
        roots: roots.as_slice(),
    };
    let known = KnownTables {
        tables: masked,
        units: PhantomData,
    };
    reported(alloc, &known)
}
