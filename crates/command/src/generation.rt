//! What is due for a generation.

ghost use Rattle.std.specs.Prelude.{◌≤◌, IfOk};
ghost use Rattle.command.specs.Due.{IsMeasuredAs};

use crate::measuring::measure;
use crate::rendering::Plan;
use mx_base::Text;
use std::alloc::{AllocError, Global};

/// The line of the program that is generated from a number.
pub(crate) fn plan_generation(alloc: Global, count: u32) -> Result<Plan, AllocError>
    requires least { 1 ≤ count }
    requires most { count ≤ 9999 }
    ensures { IfOk result (λ plan. IsMeasuredAs count plan.status plan.text.items plan.line) }
{
    let measured = measure(alloc, count)?;
    let text = Vec::from_slice(alloc, measured.line.as_bytes())?;
    let line = Text::new(alloc);
    Ok(Plan {
        status: measured.status,
        text,
        line,
    })
}
