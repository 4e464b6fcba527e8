//! The words of the command, and the task that they give.

ghost use Rattle.std.specs.Prelude.{◌≡◌, ◌≤◌, ◌<◌, length, map, string_bytes, None, IfSome};
ghost use Rattle.command.specs.Commands.{Command, IsCommand, GiveNoCommand};
ghost use Rattle.command.specs.Tasks.{command_of};

use command_words::read_asked;
use report_model::{Reporter, place_of};

/// What the words give to do, as parts of these words.
#[derive(Clone, Copy)]
pub(crate) struct Task<'a> {
    /// How many steps an object may have.
    pub depth: u8,
    /// Whether statistics are asked for.
    pub stats: bool,
    /// The place of the reporter that renders the reports, if one does.
    pub place: Option<usize>,
    /// The FILE words, checkers and C files, in order.
    pub files: &'a [String],
}

/// The task that the words give; `None` exactly where they give no command. It takes no memory.
pub(crate) fn task_of<'a>(words: &'a [String], reporters: &[Box<dyn Reporter>]) -> Option<Task<'a>>
    ensures given { IfSome result (λ task. IsCommand (map string_bytes words.now) (map (λ b. called b) reporters.now) (command_of task)) }
    ensures only { IfSome result (λ task. (command : Command) → IsCommand (map string_bytes words.now) (map (λ b. called b) reporters.now) command → command ≡ command_of task) }
    ensures none { result ≡ None → GiveNoCommand (map string_bytes words.now) (map (λ b. called b) reporters.now) }
    ensures deep { IfSome result (λ task. task.depth ≤ 8) }
    ensures few { IfSome result (λ task. length task.files.now ≤ 80) }
    ensures within { IfSome result (λ task. IfSome task.place (λ place. place < length reporters.now)) }
{
    let asked = read_asked(words)?;
    let Some(name) = asked.format else {
        return Some(Task {
            depth: asked.depth,
            stats: asked.stats,
            place: None,
            files: asked.files,
        });
    };
    match place_of(reporters, name) {
        None => None,
        Some(place) => Some(Task {
            depth: asked.depth,
            stats: asked.stats,
            place: Some(place),
            files: asked.files,
        }),
    }
}
