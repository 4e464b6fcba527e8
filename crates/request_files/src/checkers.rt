//! The checkers of a request, read and judged one after the other.

ghost use Rattle.std.specs.Prelude.{◌≡◌, ◌≤◌, ◌^◌, ◌+◌, ◌*◌, ℕ, Some, length, slice_get, IfOk, IfErr, OnOk};
ghost use Rattle.mx_base.specs.Names.{AddsAtMost, HasNoRepeats};
ghost use Rattle.metal_numbers.specs.MetalBuilding.Places.{HasPlaces};
ghost use Rattle.metal_tree.specs.Whole.{machine_view};
ghost use Rattle.metal_tree.specs.declared.machine.Machine.{Machine as MachineValue};
ghost use Rattle.mx_io.specs.Reads.{ReadsReadable};
ghost use Rattle.request_files.specs.InTurn.{AnswersUnread, AreReadCheckers};
ghost use Rattle.request_files.specs.Faults.{before_file};
ghost use Rattle.request_files.specs.Meanings.{IsChecker};
ghost use Rattle.request_files.specs.Ways.Stages.{AnswersStopped, HasLoadedChecker, IsUnread, failed_after_stop};
ghost use Rattle.request_files.specs.Telling.{may_hold};
ghost use Rattle.request_files.specs.Turns.{CheckerFile, checker_turn, numbered};
ghost use Rattle.request_files.specs.Views.{machines_of, words_of};

use crate::fault::Fault;
use crate::file::{Missing, read_file};
use crate::front_end::{read_checker, read_tokens};
use crate::stopped::{Stopped, at_start, refused};
use crate::unread::Unread;
use bumpalo::Bump;
use c_lexer::{Mode, Tokens};
use metal_tree::Machine;
use mx_base::Names;
use mx_io::Files;
use std::alloc::Global;

/// A checker's machine, and how many bytes its file has.
#[derive(Drop)]
pub(crate) struct LoadedChecker<'a> {
    pub machine: Machine<'a>,
    pub size: u64,
}

/// The machine of a checker's bytes. The tokens stand in `place`.
fn read_machine<'a>(
    arena: &'a Bump,
    alloc: Global,
    bytes: &[u8],
    number: u16,
    word: &[u8],
    place: &'a mut Option<Tokens>,
    names: &mut Names,
) -> Result<Machine<'a>, Stopped>
    requires size { length bytes.now ≤ 16777216 }
    requires room { length names.old ≤ 2 ^ 30 }
    ensures ok { IfOk result (λ m. IsChecker number word.now names.old names.new bytes.now (machine_view m)) }
    ensures places { IfOk result (λ m. HasPlaces number m.rules.now) }
    ensures stopped { IfErr result (λ e. IsUnread (before_file (length bytes.now) names.old) (checker_turn number word.now) bytes.now e) }
    ensures adds { AddsAtMost names.old names.new (2 * length bytes.now + 1) }
    ensures distinct { HasNoRepeats names.new }
{
    let tokens = match read_tokens(alloc, bytes, Mode::Metal, number, word, names) {
        Ok(tokens) => tokens,
        Err(refusal) => return Err(refused(alloc, names, refusal)),
    };
    let kept = place.insert(tokens);
    match read_checker(arena, alloc, kept, names) {
        Ok(machine) => Ok(machine),
        Err(refusal) => Err(refused(alloc, names, refusal)),
    }
}

/// Reads and judges the checker with this number, of which at most `left` bytes may come.
pub(crate) fn load_checker<'a, F: Files>(
    arena: &'a Bump,
    alloc: Global,
    files: &mut F,
    word: &str,
    number: u16,
    left: u64,
    place: &'a mut Option<Tokens>,
    names: &mut Names,
) -> Result<LoadedChecker<'a>, Stopped>
    requires left { left ≤ 33554432 }
    requires room { length names.old ≤ 2 ^ 30 }
    ensures ok { IfOk result (λ l. HasLoadedChecker (F.contents files.old word.now) (before_file left names.old) number names.new word.now l.size (machine_view l.machine)) }
    ensures places { IfOk result (λ l. HasPlaces number l.machine.rules.now) }
    ensures stopped { IfErr result (λ e. AnswersStopped (F.contents files.old word.now) (before_file left names.old) (checker_turn number word.now) e) }
    ensures adds { IfOk result (λ l. AddsAtMost names.old names.new (2 * l.size + 1)) }
    ensures distinct { OnOk result (HasNoRepeats names.new) }
    ensures none_failed { IfOk result (λ l. F.failed files.new ≡ F.failed files.old) }
    ensures failed { IfErr result (λ e. F.failed files.new ≡ failed_after_stop (F.failed files.old) word.now e) }
    ensures same { F.contents files.new ≡ F.contents files.old }
    ensures readable { ReadsReadable (F.readable files.old) (F.failed files.old) (F.failed files.new) }
    ensures kept { F.readable files.new ≡ F.readable files.old }
{
    let bytes = match read_file(files, word, left) {
        Ok(bytes) => bytes,
        Err(Missing::NotRead) => return Err(Stopped::NotRead),
        Err(Missing::TooLarge) => return Err(at_start(alloc, word.as_bytes(), Fault::TooLarge)),
        Err(Missing::NoMemory) => return Err(Stopped::NoMemory),
    };
    let size = bytes.len() as u64;
    match read_machine(arena, alloc, &bytes, number, word.as_bytes(), place, names) {
        Ok(machine) => Ok(LoadedChecker { machine, size }),
        Err(stopped) => Err(stopped),
    }
}

/// The machines of checkers, each with its position as the file of its rules' places, and how many bytes may still come.
#[derive(Drop)]
pub struct CheckersRead<'a> {
    pub machines: Vec<Machine<'a>>,
    pub left: u64,
}

/// Reads the checkers of these words, of which at most `left` bytes may come, and judges each before the next is read.
///
/// Trees stand in the arena, and the tokens of each checker in a place of its own. Each byte of a file adds at most two names, and
/// its word one: which names stand behind them follows from the bytes.
pub fn read_checkers<'a, F: Files>(
    arena: &'a Bump,
    alloc: Global,
    files: &mut F,
    words: &[&str],
    left: u64,
    places: &'a mut [Option<Tokens>],
    names: &mut Names,
) -> Result<CheckersRead<'a>, Unread>
    requires left { left ≤ 33554432 }
    requires few { length words.now ≤ 65535 }
    requires enough { length words.now ≤ length places.old }
    requires room { length names.old ≤ 2 ^ 28 }
    ensures read { IfOk result (λ r. AreReadCheckers (may_hold (F.contents files.old)) (before_file left names.old) (words_of words.now) (words_of words.now) (machines_of r.machines.items) (before_file r.left names.new)) }
    ensures places { IfOk result (λ r. (i : ℕ) (m : MachineValue) → slice_get r.machines.items i ≡ Some m → HasPlaces i m.rules.now) }
    ensures unread { IfErr result (λ e. AnswersUnread (may_hold (F.contents files.old)) (before_file left names.old) (numbered CheckerFile 0 (words_of words.now)) (F.failed files.old) (F.failed files.new) e) }
    ensures none_failed { IfOk result (λ r. F.failed files.new ≡ F.failed files.old) }
    ensures same { F.contents files.new ≡ F.contents files.old }
    ensures readable { ReadsReadable (F.readable files.old) (F.failed files.old) (F.failed files.new) }
    ensures kept { F.readable files.new ≡ F.readable files.old }
    ensures left { IfOk result (λ r. r.left ≤ left) }
    ensures room { IfOk result (λ r. length names.new + 2 * r.left ≤ length names.old + 2 * left + length words.now) }
    ensures distinct { OnOk result (HasNoRepeats names.new) }
{
    let mut machines = Vec::new(alloc);
    let mut rest = left;
    let mut free = places.iter_mut();
    for word in words {
        let place = free.next().unwrap();
        let position = machines.len();
        match load_checker(
            arena,
            alloc,
            files,
            word,
            position as u16,
            rest,
            place,
            names,
        ) {
            Err(Stopped::NotRead) => return Err(Unread::NotRead(position)),
            Err(Stopped::Faulty(located)) => return Err(Unread::Faulty(position, located)),
            Err(Stopped::NoMemory) => return Err(Unread::NoMemory),
            Ok(loaded) => {
                rest -= loaded.size;
                let Ok(_) = machines.push(loaded.machine) else {
                    return Err(Unread::NoMemory);
                };
            }
        }
    }
    // that no name stands twice is what `len` says of names
    let _count = names.len();
    Ok(CheckersRead {
        machines,
        left: rest,
    })
}
