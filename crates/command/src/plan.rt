//! What a run is due, decided before anything is written.

ghost use Rattle.std.specs.Prelude.{◌≡◌, ◌≢◌, ◌≤◌, ◌<◌, ◌+◌, ℕ, length, map, slice_get, string_bytes, vec_len, IfOk, IfSome, OnErr, Some};
ghost use Rattle.command_words.specs.Generation.{IsGeneration};
ghost use Rattle.command.specs.Commands.{GiveNone, IsOther};
ghost use Rattle.command.specs.Due.{FailedInTurn, FailedInTurnOf, IsDue, IsDueFor};
ghost use Rattle.command.specs.Ways.Plans.{IsAmong, IsPlanOf};
ghost use Rattle.command.specs.Ran.{Leaves, Spares, reporter_step};
ghost use Rattle.command.specs.Tasks.{LeavesAt, command_of};
ghost use Rattle.mx_io.specs.Reads.{ReadsReadable};
ghost use Rattle.request_files.specs.Telling.{may_hold};
ghost use Rattle.request_files.specs.Views.{words_of};

use crate::generation::plan_generation;
use crate::judged_files::Unjudged;
use crate::kinds::{checkers_among, sources_among, word_at};
use crate::outcome::reports_of;
use crate::refusal::{not_read, refused, usage};
use crate::rendering::{Plan, plan_reports};
use crate::status::Status;
use crate::words::{Task, task_of};
use command_words::read_generation;
use mx_io::Files;
use report_model::Reporter;
use std::alloc::{AllocError, Global};

/// What is due where the files of a task gave no reports.
fn plan_refusal(
    alloc: Global,
    checkers: &[&str],
    sources: &[&str],
    unjudged: Unjudged,
) -> Result<Plan, AllocError>
    requires { IsAmong (length checkers.now + length sources.now) unjudged }
    ensures { IfOk result (λ plan. IsPlanOf (words_of checkers.now) (words_of sources.now) unjudged plan.status plan.text.items plan.line) }
{
    let text = Vec::new(alloc);
    match unjudged {
        Unjudged::NotRead(position) => {
            let line = not_read(alloc, word_at(checkers, sources, position))?;
            Ok(Plan {
                status: Status::ReadFault,
                text,
                line,
            })
        }
        Unjudged::Faulty(located) => {
            let line = refused(alloc, &located)?;
            Ok(Plan {
                status: Status::Refused,
                text,
                line,
            })
        }
        Unjudged::NoMemory => Err(AllocError),
    }
}

/// What is due for a task.
fn plan_task<F: Files>(
    alloc: Global,
    task: &Task,
    files: &mut F,
    reporters: &mut Vec<Box<dyn Reporter>>,
) -> Result<Plan, AllocError>
    requires deep { task.now.depth ≤ 8 }
    requires few { length task.now.files.now ≤ 80 }
    requires within { IfSome task.now.place (λ p. p < vec_len reporters.old) }
    ensures due { IfOk result (λ plan. IsDueFor (may_hold (F.contents files.old)) (command_of task.now) (λ reports. map (λ b. rendered b reports) reporters.old.items) (F.failed files.old) (F.failed files.new) plan.status plan.text.items plan.line) }
    ensures failed { OnErr result (FailedInTurnOf (may_hold (F.contents files.old)) (command_of task.now) (F.failed files.old) (F.failed files.new)) }
    ensures readable { ReadsReadable (F.readable files.old) (F.failed files.old) (F.failed files.new) }
    ensures names { map (λ b. called b) reporters.new.items ≡ map (λ b. called b) reporters.old.items }
    ensures styles { map (λ b. rendered b) reporters.new.items ≡ map (λ b. rendered b) reporters.old.items }
    ensures others { (k : ℕ) → task.now.place ≢ Some k → slice_get (map (λ b. taken b) reporters.new.items) k ≡ slice_get (map (λ b. taken b) reporters.old.items) k }
    ensures leaves { IfOk result (λ plan. LeavesAt task.now.place (map (λ b. taken b) reporters.old.items) (map (λ b. taken b) reporters.new.items) plan.status) }
{
    let checkers = checkers_among(alloc, task.files)?;
    let sources = sources_among(alloc, task.files)?;
    match reports_of(alloc, files, &checkers, &sources, task.depth, task.stats) {
        Ok(found) => plan_reports(alloc, task.place, reporters, &found.reports, found.entries),
        Err(unjudged) => plan_refusal(alloc, &checkers, &sources, unjudged),
    }
}

/// Reads and judges the files, or generates and judges a program, and makes all that is to be written.
pub(crate) fn decide<F: Files>(
    alloc: Global,
    words: &[String],
    files: &mut F,
    reporters: &mut Vec<Box<dyn Reporter>>,
) -> Result<Plan, AllocError>
    ensures due { IfOk result (λ plan. IsDue (may_hold (F.contents files.old)) (map string_bytes words.now) (map (λ b. called b) reporters.old.items) (λ reports. map (λ b. rendered b reports) reporters.old.items) (F.failed files.old) (F.failed files.new) plan.status plan.text.items plan.line) }
    ensures failed { OnErr result (FailedInTurn (may_hold (F.contents files.old)) (map string_bytes words.now) (map (λ b. called b) reporters.old.items) (F.failed files.old) (F.failed files.new)) }
    ensures readable { ReadsReadable (F.readable files.old) (F.failed files.old) (F.failed files.new) }
    ensures names { map (λ b. called b) reporters.new.items ≡ map (λ b. called b) reporters.old.items }
    ensures styles { map (λ b. rendered b) reporters.new.items ≡ map (λ b. rendered b) reporters.old.items }
    ensures others { (k : ℕ) → IsOther (map string_bytes words.now) (map (λ b. called b) reporters.old.items) k → slice_get (map (λ b. taken b) reporters.new.items) k ≡ slice_get (map (λ b. taken b) reporters.old.items) k }
    ensures leaves { IfOk result (λ plan. Leaves (map string_bytes words.now) (reporter_step (map (λ b. called b) reporters.old.items) (λ reports. map (λ b. rendered b reports) reporters.old.items) (map (λ b. taken b) reporters.old.items) (map (λ b. taken b) reporters.new.items)) plan.status) }
    ensures untouched { (count : ℕ) → IsGeneration (map string_bytes words.now) count → files.new ≡ files.old }
    ensures unread { GiveNone (map string_bytes words.now) (map (λ b. called b) reporters.old.items) → files.new ≡ files.old }
    ensures spares { Spares (map string_bytes words.now) (reporter_step (map (λ b. called b) reporters.old.items) (λ reports. map (λ b. rendered b reports) reporters.old.items) (map (λ b. taken b) reporters.old.items) (map (λ b. taken b) reporters.new.items)) }
{
    if let Some(count) = read_generation(words) {
        let plan = plan_generation(alloc, count)?;
        return Ok(plan);
    }
    let Some(task) = task_of(words, reporters) else {
        let text = Vec::new(alloc);
        let line = usage(alloc)?;
        return Ok(Plan {
            status: Status::Usage,
            text,
            line,
        });
    };
    let plan = plan_task(alloc, &task, files, reporters)?;
    Ok(plan)
}
