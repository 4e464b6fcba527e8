//! All files of a request: the checkers, then the C files.

ghost use Rattle.std.specs.Prelude.{◌≡◌, ◌≤◌, [], ℕ, Some, length, slice_get, IfOk, IfErr, OnOk};
ghost use Rattle.mx_base.specs.Names.{HasNoRepeats};
ghost use Rattle.metal_numbers.specs.MetalBuilding.Places.{HasPlaces};
ghost use Rattle.metal_tree.specs.declared.machine.Machine.{Machine as MachineValue};
ghost use Rattle.mx_io.specs.Reads.{ReadsReadable};
ghost use Rattle.request_files.specs.InTurn.{AnswersUnread, AreReadFiles};
ghost use Rattle.request_files.specs.Reading.{at_first};
ghost use Rattle.request_files.specs.Telling.{may_hold};
ghost use Rattle.request_files.specs.Turns.{turns};
ghost use Rattle.request_files.specs.Views.{machines_of, texts_of, words_of};
ghost use Rattle.typed_unit.specs.declared.typed_unit.TypedUnit.{TypedUnit as UnitValue};

use crate::checkers::{CheckersRead, read_checkers};
use crate::file::TOTAL_LIMIT;
use crate::sources::{SourcesRead, read_sources};
use crate::unread::Unread;
use bumpalo::Bump;
use c_lexer::Tokens;
use mx_base::Names;
use mx_io::Files;
use std::alloc::Global;

/// The machines of a request's checkers and the units of its C files, each unit with its position as the number of its file.
#[derive(Drop)]
pub struct FilesRead<'a> {
    pub checkers: CheckersRead<'a>,
    pub sources: SourcesRead<'a>,
}

/// Reads the checkers and then the C files of a request, and judges each before the next is read.
///
/// Trees stand in the arena. The tokens of each checker, and those that are kept of each C file, stand in a place of its own. Positions
/// count the checkers first. No name stands before the first file, so that the numbers of names are given by the files.
pub fn read_files<'a, F: Files>(
    arena: &'a Bump,
    alloc: Global,
    files: &mut F,
    checkers: &[&str],
    sources: &[&str],
    checker_places: &'a mut [Option<Tokens>],
    source_places: &'a mut [Option<Tokens>],
    names: &mut Names,
) -> Result<FilesRead<'a>, Unread>
    requires few_checkers { length checkers.now ≤ 65535 }
    requires few_sources { length sources.now ≤ 65535 }
    requires enough_for_checkers { length checkers.now ≤ length checker_places.old }
    requires enough_for_sources { length sources.now ≤ length source_places.old }
    requires fresh { names.old ≡ [] }
    ensures read { IfOk result (λ r. AreReadFiles (may_hold (F.contents files.old)) (words_of checkers.now) (words_of sources.now) names.new (machines_of r.checkers.machines.items) (texts_of r.sources.units.items)) }
    ensures places { IfOk result (λ r. (i : ℕ) (m : MachineValue) → slice_get r.checkers.machines.items i ≡ Some m → HasPlaces i m.rules.now) }
    ensures numbered { IfOk result (λ r. (i : ℕ) (u : UnitValue) → slice_get r.sources.units.items i ≡ Some u → u.unit.file ≡ i) }
    ensures unread { IfErr result (λ e. AnswersUnread (may_hold (F.contents files.old)) at_first (turns (words_of checkers.now) (words_of sources.now)) (F.failed files.old) (F.failed files.new) e) }
    ensures none_failed { IfOk result (λ r. F.failed files.new ≡ F.failed files.old) }
    ensures same { F.contents files.new ≡ F.contents files.old }
    ensures readable { ReadsReadable (F.readable files.old) (F.failed files.old) (F.failed files.new) }
    ensures kept { F.readable files.new ≡ F.readable files.old }
    ensures distinct { OnOk result (HasNoRepeats names.new) }
{
    let read = match read_checkers(
        arena,
        alloc,
        files,
        checkers,
        TOTAL_LIMIT,
        checker_places,
        names,
    ) {
        Ok(read) => read,
        Err(unread) => return Err(unread),
    };
    let left = read.left;
    let behind = match read_sources(arena, alloc, files, sources, left, source_places, names) {
        Ok(behind) => behind,
        Err(Unread::NotRead(position)) => return Err(Unread::NotRead(checkers.len() + position)),
        Err(Unread::Faulty(position, located)) => {
            return Err(Unread::Faulty(checkers.len() + position, located));
        }
        Err(Unread::NoMemory) => return Err(Unread::NoMemory),
    };
    Ok(FilesRead {
        checkers: read,
        sources: behind,
    })
}
