//! The reports of the fixed checker over a program.

ghost use Rattle.std.specs.Prelude.{◌≡◌, [], ◌∷◌, IfOk};
ghost use Rattle.command.specs.Checker.{free_text};
ghost use Rattle.command.specs.Measured.{AreReportsOf, checker_name, program_name};

use crate::checker_reports::Found;
use crate::outcome::reports_of;
use mx_io::MemFiles;
use report_model::Report;
use std::alloc::{AllocError, Global};

/// The fixed checker.
const CHECKER: &[u8] = b"sm free_checker {
 state decl any_pointer v;
 start: { kfree(v) } ==> v.freed ;
 v.freed: { *v } ==> v.stop, { err(\"using %s after free!\", mc_identifier(v)); }
        | { kfree(v) } ==> v.stop, { err(\"double free of %s!\", mc_identifier(v)); } ;
}
";

/// The fixed checker and a program, as files in memory of which no read fails.
fn files_with(alloc: Global, program: &[u8]) -> Result<MemFiles, AllocError>
    ensures { IfOk result (λ f. f.files ≡ (checker_name, free_text) ∷ (program_name, program.now) ∷ []) }
{
    let mut files = MemFiles::new(alloc, &[])?;
    files.add("free.metal", CHECKER)?;
    files.add("generated.c", program)?;
    Ok(files)
}

/// The reports of the fixed checker over a program, judged as files with these contents are. A program that were refused would end
/// like want of memory: no clause says that no generated one is, and none of the numbers in `cases/` gives one that is.
pub(crate) fn program_reports(alloc: Global, program: &[u8]) -> Result<Vec<Report>, AllocError>
    ensures { IfOk result (λ reports. AreReportsOf program.now reports.items) }
{
    let mut files = files_with(alloc, program)?;
    match reports_of(
        alloc,
        &mut files,
        &["free.metal"],
        &["generated.c"],
        4,
        false,
    ) {
        Ok(found) => {
            let Found {
                reports,
                entries: _,
            } = found;
            Ok(reports)
        }
        Err(_) => Err(AllocError),
    }
}
