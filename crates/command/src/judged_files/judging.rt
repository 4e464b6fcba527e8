//! What the checkers of a request find in its files.

ghost use Rattle.std.specs.Prelude.{◌≡◌, ◌≤◌, ◌<◌, ◌^◌, [], ℕ, Contains, IfOk, IfErr, OnOk, None, Some, length, map, slice_get};
ghost use Rattle.type_rules.specs.Functions.{Defined};
ghost use Rattle.path_model.specs.CheckerPrograms.Reported.{AreReports};
ghost use Rattle.path_model.specs.CheckerPrograms.Texts.{functions_in};
ghost use Rattle.command.specs.CheckerReports.Checkers.{checkers_in};
ghost use Rattle.command.specs.JudgedFiles.FirstFault.{AnswersUnjudged, AnswersUnlinked};
ghost use Rattle.command.specs.JudgedFiles.Linking.{HaveToken};
ghost use Rattle.command.specs.Ways.Counts.{AreCounted, IsCountFor};
ghost use Rattle.metal_tree.specs.Whole.{machine_view};
ghost use Rattle.call_graph.specs.OfPrograms.Repeats.{link_fault};
ghost use Rattle.mx_io.specs.Reads.{ReadsReadable};
ghost use Rattle.request_files.specs.Telling.{may_hold};
ghost use Rattle.request_files.specs.Views.{machines_of, texts_of, words_of};
ghost use Rattle.typed_unit.specs.declared.typed_unit.TypedUnit.{TypedUnit as UnitValue};

use crate::checker_reports::{Found, all_found};
use crate::judged_files::lending::lent_units;
use crate::judged_files::locating::defined_again;
use crate::judged_files::unjudged::Unjudged;
use bumpalo::Bump;
use c_lexer::Tokens;
use call_graph::{LinkFault, link};
use metal_tree::Machine;
use mx_base::Names;
use mx_io::Files;
use request_files::{Unread, read_files};
use std::alloc::Global;
use typed_unit::TypedUnit;

/// What checkers find in units, each of which has its position as the number of its file.
fn judge_units<'u, 'a>(
    alloc: Global,
    machines: &[Machine<'u>],
    units: &'u [TypedUnit<'a>],
    names: &Names,
    depth: u8,
    stats: bool,
) -> Result<Found, Unjudged>
    requires deep { depth ≤ 8 }
    requires few_machines { length machines.now ≤ 65535 }
    requires few_units { length units.now ≤ 65535 }
    requires numbered { (i : ℕ) (u : UnitValue) → slice_get units.now i ≡ Some u → u.unit.file ≡ i }
    requires few_functions { length (functions_in (texts_of units.now)) < 2 ^ 32 }
    requires placed { (f : Defined) → Contains (functions_in (texts_of units.now)) f → HaveToken names.now (texts_of units.now) f.place }
    ensures linked { OnOk result (link_fault (functions_in (texts_of units.now)) ≡ None) }
    ensures reports { IfOk result (λ found. ∥ AreReports (checkers_in (machines_of machines.now) depth names.now) (texts_of units.now) found.reports.items ∥₁) }
    ensures counted { IfOk result (λ found. IsCountFor stats (checkers_in (machines_of machines.now) depth names.now) (texts_of units.now) found.entries) }
    ensures unlinked { IfErr result (λ e. AnswersUnlinked names.now (texts_of units.now) e) }
{
    let Ok(lent) = lent_units(alloc, units) else {
        return Err(Unjudged::NoMemory);
    };
    match link(lent) {
        Ok(program) => match all_found(alloc, &program, machines, names, depth, stats) {
            Ok(found) => Ok(found),
            Err(_) => Err(Unjudged::NoMemory),
        },
        Err(LinkFault::DuplicateFunction { place, .. }) => {
            match defined_again(alloc, units, place, names) {
                Ok(located) => Err(Unjudged::Faulty(located)),
                Err(_) => Err(Unjudged::NoMemory),
            }
        }
        Err(LinkFault::NoMemory) => Err(Unjudged::NoMemory),
    }
}

/// Reads and judges the files of a request, links its C files, and finds the reports of its checkers over them, and how many entries their
/// logs have, where statistics are asked for. Objects have at most `depth` steps.
///
/// Trees stand in the arena. The tokens of each checker, and those that are kept of each C file, stand in a place of its own. No name stands
/// before the first file, so that the numbers of names are given by the files.
pub fn judge_files<'a, F: Files>(
    arena: &'a Bump,
    alloc: Global,
    files: &mut F,
    checkers: &[&str],
    sources: &[&str],
    depth: u8,
    stats: bool,
    checker_places: &'a mut [Option<Tokens>],
    source_places: &'a mut [Option<Tokens>],
    names: &mut Names,
) -> Result<Found, Unjudged>
    requires few_checkers { length checkers.now ≤ 65535 }
    requires few_sources { length sources.now ≤ 65535 }
    requires enough_for_checkers { length checkers.now ≤ length checker_places.old }
    requires enough_for_sources { length sources.now ≤ length source_places.old }
    requires deep { depth ≤ 8 }
    requires fresh { names.old ≡ [] }
    ensures accepted { IfOk result (λ found. AreCounted (may_hold (F.contents files.old)) (words_of checkers.now) (words_of sources.now) depth stats found.reports.items found.entries) }
    ensures unjudged { IfErr result (λ e. AnswersUnjudged (may_hold (F.contents files.old)) (words_of checkers.now) (words_of sources.now) (F.failed files.old) (F.failed files.new) e) }
    ensures none_failed { OnOk result (F.failed files.new ≡ F.failed files.old) }
    ensures readable { ReadsReadable (F.readable files.old) (F.failed files.old) (F.failed files.new) }
{
    let read = match read_files(
        arena,
        alloc,
        files,
        checkers,
        sources,
        checker_places,
        source_places,
        names,
    ) {
        Ok(read) => read,
        Err(Unread::NotRead(position)) => return Err(Unjudged::NotRead(position)),
        Err(Unread::Faulty(_, located)) => return Err(Unjudged::Faulty(located)),
        Err(Unread::NoMemory) => return Err(Unjudged::NoMemory),
    };
    match judge_units(
        alloc,
        &read.checkers.machines,
        &read.sources.units,
        names,
        depth,
        stats,
    ) {
        Ok(found) => Ok(found),
        Err(unjudged) => Err(unjudged),
    }
}
