//! The whole run of the program: the command with the two styles of reporters that it has.

ghost use Rattle.std.specs.Prelude.{◌≡◌, codes, map, string_bytes, IfOk};
ghost use Rattle.command.specs.Run.{reporter_state};
ghost use Rattle.command.specs.Written.{AreHanded};
ghost use Rattle.metalcheck.specs.Styles.{AreOfBothStyles, PromiseInStyles, both_styles};
ghost use Rattle.report_model.specs.OfReporters.Styles.{json_of, report_table};

use command::{Status, run};
use mx_io::{Files, Sink};
use report_model::{JsonLines, Reporter, Table};
use std::alloc::{AllocError, Global};

/// A reporter of each style.
fn table_and_json(alloc: Global) -> Result<(Box<Table>, Box<JsonLines>), AllocError> {
    let table = Box::new(alloc, Table::new(alloc))?;
    let json = Box::new(alloc, JsonLines::new(alloc))?;
    Ok((table, json))
}

/// The reporters of the two styles, in the order of their names.
fn list_of(
    alloc: Global,
    table: Box<dyn Reporter>,
    json: Box<dyn Reporter>,
) -> Result<Vec<Box<dyn Reporter>>, AllocError>
    requires names { (called table ≡ codes "table") × (called json ≡ codes "json") }
    requires styles { (rendered table ≡ report_table) × (rendered json ≡ json_of) }
    ensures { IfOk result (λ all. AreOfBothStyles (map (λ b. reporter_state (called b) (rendered b) (taken b)) all.items)) }
{
    let mut all = Vec::new(alloc);
    all.push(table)?;
    all.push(json)?;
    Ok(all)
}

/// Runs the command, where `--format` chooses from the styles `table` and `json`: what `run` does with a reporter of each.
pub(crate) fn run_in_styles<F: Files, O: Sink, E: Sink>(
    alloc: Global,
    words: &[String],
    files: &mut F,
    out: &mut O,
    errs: &mut E,
) -> Status
    ensures { PromiseInStyles files.old files.new (AreHanded O.write_gives E.write_gives out.old out.new errs.old errs.new) (record {
      words = map string_bytes words.now;
      told = F.contents files.old;
      readable = F.readable files.old;
      failed_before = F.failed files.old;
      failed_after = F.failed files.new;
      reporters_before = both_styles;
      reporters_after = both_styles;
      out = record { before = O.received out.old; after = O.received out.new; faults_before = O.faults out.old; faults_after = O.faults out.new; sure = O.sure out.old };
      errs = record { before = E.received errs.old; after = E.received errs.new; faults_before = E.faults errs.old; faults_after = E.faults errs.new; sure = E.sure errs.old };
      status = result;
    }) }
{
    let Ok((table, json)) = table_and_json(alloc) else {
        return Status::NoMemory;
    };
    let Ok(mut reporters) = list_of(alloc, table, json) else {
        return Status::NoMemory;
    };
    run(alloc, words, files, out, errs, &mut reporters)
}
