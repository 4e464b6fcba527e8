//! The whole run.

ghost use Rattle.std.specs.Prelude.{map, string_bytes};
ghost use Rattle.command.specs.Run.{Promise, reporter_state};
ghost use Rattle.command.specs.Written.{AreHanded};

use crate::plan::decide;
use crate::status::Status;
use crate::write_out::carry_out;
use mx_io::{Files, Sink};
use report_model::Reporter;
use std::alloc::Global;

/// Runs checkers over C files: reads and judges the files that the words name, and then writes the reports to `out`, as lines or as the
/// chosen reporter renders them, or one line to `errs`. Where the words ask for a generation, the generated program is judged, no file is
/// read, and one line is written to `out`. Nothing is written before all is decided.
///
/// The bytes of a file have at most one list of tokens, trees, types or machine, or one first fault, and never both
/// (`one_answer::meanings_are_unique`, `first_faults_are_unique`, `never_both`), so no choice is left to what is due. What is reported is said
/// by flat lists of events, calls and returns; nested paths report the same (`one_answer::nested_paths_report_the_same`).
pub fn run<F: Files, O: Sink, E: Sink>(
    alloc: Global,
    words: &[String],
    files: &mut F,
    out: &mut O,
    errs: &mut E,
    reporters: &mut Vec<Box<dyn Reporter>>,
) -> Status
    ensures { Promise files.old files.new (AreHanded O.write_gives E.write_gives out.old out.new errs.old errs.new) (record {
      words = map string_bytes words.now;
      told = F.contents files.old;
      readable = F.readable files.old;
      failed_before = F.failed files.old;
      failed_after = F.failed files.new;
      reporters_before = map (λ b. reporter_state (called b) (rendered b) (taken b)) reporters.old.items;
      reporters_after = map (λ b. reporter_state (called b) (rendered b) (taken b)) reporters.new.items;
      out = record { before = O.received out.old; after = O.received out.new; faults_before = O.faults out.old; faults_after = O.faults out.new; sure = O.sure out.old };
      errs = record { before = E.received errs.old; after = E.received errs.new; faults_before = E.faults errs.old; faults_after = E.faults errs.new; sure = E.sure errs.old };
      status = result;
    }) }
{
    let Ok(plan) = decide(alloc, words, files, reporters) else {
        return Status::NoMemory;
    };
    carry_out(
        plan.status,
        plan.text.as_slice(),
        plan.line.as_bytes(),
        out,
        errs,
    )
}
