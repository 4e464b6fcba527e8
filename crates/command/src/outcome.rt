//! What the files of a task come to.

ghost use Rattle.std.specs.Prelude.{◌≡◌, ◌≤◌, length, IfOk, IfErr, OnOk};
ghost use Rattle.command.specs.JudgedFiles.FirstFault.{AnswersUnjudged};
ghost use Rattle.command.specs.Ways.Counts.{AreCounted};
ghost use Rattle.mx_io.specs.Reads.{ReadsReadable};
ghost use Rattle.request_files.specs.Telling.{may_hold};
ghost use Rattle.request_files.specs.Views.{words_of};

use crate::checker_reports::Found;
use crate::judged_files::{Unjudged, judge_files};
use crate::kinds::empty_places;
use bumpalo::Bump;
use mx_base::Names;
use mx_io::Files;
use std::alloc::Global;

/// The reports of checkers over C files, and how many entries their logs have, where statistics are asked for. Their trees and tokens stand
/// in places that are made here.
pub(crate) fn reports_of<F: Files>(
    alloc: Global,
    files: &mut F,
    checkers: &[&str],
    sources: &[&str],
    depth: u8,
    stats: bool,
) -> Result<Found, Unjudged>
    requires few_checkers { length checkers.now ≤ 80 }
    requires few_sources { length sources.now ≤ 80 }
    requires deep { depth ≤ 8 }
    ensures accepted { IfOk result (λ found. AreCounted (may_hold (F.contents files.old)) (words_of checkers.now) (words_of sources.now) depth stats found.reports.items found.entries) }
    ensures unjudged { IfErr result (λ e. AnswersUnjudged (may_hold (F.contents files.old)) (words_of checkers.now) (words_of sources.now) (F.failed files.old) (F.failed files.new) e) }
    ensures none_failed { OnOk result (F.failed files.new ≡ F.failed files.old) }
    ensures readable { ReadsReadable (F.readable files.old) (F.failed files.old) (F.failed files.new) }
{
    let Ok(mut checker_places) = empty_places(alloc, checkers.len()) else {
        return Err(Unjudged::NoMemory);
    };
    let Ok(mut source_places) = empty_places(alloc, sources.len()) else {
        return Err(Unjudged::NoMemory);
    };
    let arena = Bump::new(alloc);
    let mut names = Names::new(alloc);
    match judge_files(
        &arena,
        alloc,
        files,
        checkers,
        sources,
        depth,
        stats,
        &mut checker_places,
        &mut source_places,
        &mut names,
    ) {
        Ok(found) => Ok(found),
        Err(unjudged) => Err(unjudged),
    }
}
