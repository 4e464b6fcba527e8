//! The request that words stand for, by positions.

ghost use Rattle.std.specs.Prelude.{◌≡◌, ◌⊎◌, ◌<◌, ◌≤◌, ◌-◌, ◌^◌, ℕ, Err, Some, length, map, string_bytes, IfOk, IfSome, MatchResult};
ghost use Rattle.std.specs.List.{range_with_len};
ghost use Rattle.command.specs.Commands.{GiveNone};
ghost use Rattle.command.specs.Requests.{AskFor};
ghost use Rattle.command_words.specs.Generation.{IsGeneration};

use crate::words::task_of;
use command_words::read_generation;
use report_model::Reporter;
use std::alloc::{AllocError, Global};

/// What words ask for, by positions in the lists that were handed in.
#[derive(Drop)]
pub struct Request {
    /// How many steps an object may have, 0 to 8.
    pub depth: u8,
    /// The reporter that `--format` names.
    pub format: Option<u32>,
    /// Whether statistics are asked for.
    pub stats: bool,
    /// The FILE words, checkers and C files, in order: the last of the words.
    pub files: Vec<u32>,
    /// How many functions to generate, 1 to 9999; there are no files then.
    pub generate: Option<u32>,
}

/// Why words give no request.
#[derive(Clone, Copy, Debug, PartialEq, Eq)]
pub enum WordsFault {
    /// They stand for none.
    Usage,
    /// There was no memory.
    NoMemory,
}

/// The positions from one on, up to and without another.
fn positions(alloc: Global, from: usize, to: usize) -> Result<Vec<u32>, AllocError>
    requires bounded { to < 2 ^ 32 }
    requires ordered { from ≤ to }
    ensures { IfOk result (λ all. all.items ≡ range_with_len from (to - from)) }
{
    let mut all = Vec::new(alloc);
    let mut position = from;
    while position < to {
        all.push(position as u32)?;
        position += 1;
    }
    Ok(all)
}

/// The same place, of which there are fewer than 2^32.
fn short_place(place: Option<usize>) -> Option<u32>
    requires { IfSome place (λ p. p < 2 ^ 32) }
    ensures { result ≡ place }
{
    match place {
        Some(place) => Some(place as u32),
        None => None,
    }
}

/// The request that words stand for, where these reporters are handed in.
pub fn read_words(
    alloc: Global,
    words: &[String],
    reporters: &[Box<dyn Reporter>],
) -> Result<Request, WordsFault>
    requires few { length reporters.now < 2 ^ 32 }
    ensures request { IfOk result (λ request. AskFor (map string_bytes words.now) (map (λ b. called b) reporters.now) request request.generate) }
    ensures generation { (count : ℕ) → IsGeneration (map string_bytes words.now) count → MatchResult result (λ request. request.generate ≡ Some count) (λ fault. ⊥) }
    ensures usage { result ≡ Err WordsFault.Usage → GiveNone (map string_bytes words.now) (map (λ b. called b) reporters.now) }
    ensures none { GiveNone (map string_bytes words.now) (map (λ b. called b) reporters.now) → (result ≡ Err WordsFault.Usage) ⊎ (result ≡ Err WordsFault.NoMemory) }
{
    if let Some(count) = read_generation(words) {
        return Ok(Request {
            depth: 4,
            format: None,
            stats: false,
            files: Vec::new(alloc),
            generate: Some(count),
        });
    }
    let Some(task) = task_of(words, reporters) else {
        return Err(WordsFault::Usage);
    };
    let from = words.len() - task.files.len();
    let Ok(files) = positions(alloc, from, words.len()) else {
        return Err(WordsFault::NoMemory);
    };
    Ok(Request {
        depth: task.depth,
        format: short_place(task.place),
        stats: task.stats,
        files,
        generate: None,
    })
}
