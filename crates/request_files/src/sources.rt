//! The C files of a request, read and judged one after the other.

ghost use Rattle.std.specs.Prelude.{◌≡◌, ◌≤◌, ◌^◌, ◌+◌, ℕ, Some, length, slice_get, IfOk, IfErr, OnOk};
ghost use Rattle.mx_base.specs.Names.{AddsAtMost, HasNoRepeats};
ghost use Rattle.c_lexer.specs.CReading.Strip.{stripped};
ghost use Rattle.c_tree.specs.Views.{nodes_of};
ghost use Rattle.type_rules.specs.Unit.{table_by};
ghost use Rattle.mx_io.specs.Reads.{ReadsReadable};
ghost use Rattle.request_files.specs.Faults.{before_file};
ghost use Rattle.request_files.specs.FrontEnd.Sources.{AreTypedTrees};
ghost use Rattle.request_files.specs.InTurn.{AnswersUnread, AreReadSources};
ghost use Rattle.request_files.specs.Meanings.{IsSource};
ghost use Rattle.request_files.specs.Ways.Stages.{AnswersStopped, AreKnown, HasLoadedSource, HasNoUnit, IsUnread, failed_after_stop};
ghost use Rattle.request_files.specs.Telling.{may_hold};
ghost use Rattle.request_files.specs.Turns.{SourceFile, numbered, source_turn};
ghost use Rattle.request_files.specs.Views.{text_of, texts_of, words_of};
ghost use Rattle.typed_unit.specs.Tables.{table_of};
ghost use Rattle.typed_unit.specs.declared.typed_unit.TypedUnit.{TypedUnit as UnitValue};

use crate::fault::Fault;
use crate::file::{Missing, read_file};
use crate::front_end::{read_tokens, read_typed};
use crate::stopped::{Stopped, at_start, refused};
use crate::unread::Unread;
use bumpalo::Bump;
use c_lexer::{Mode, Tokens, strip};
use mx_base::Names;
use mx_io::Files;
use std::alloc::Global;
use typed_unit::TypedUnit;

/// A C file's unit, and how many bytes the file has.
#[derive(Drop)]
pub(crate) struct LoadedSource<'a> {
    pub unit: TypedUnit<'a>,
    pub size: u64,
}

/// The unit of a C file's tokens. Those that are kept stand in `place`.
fn type_tokens<'a>(
    arena: &'a Bump,
    alloc: Global,
    tokens: &Tokens,
    place: &'a mut Option<Tokens>,
    names: &Names,
) -> Result<TypedUnit<'a>, Stopped>
    requires few { length tokens.now.all ≤ 16777216 }
    requires known { AreKnown names.now tokens.now }
    ensures tokens { IfOk result (λ u. u.unit.tokens.now ≡ stripped tokens.now.all) }
    ensures trees { IfOk result (λ u. AreTypedTrees (stripped tokens.now.all) (nodes_of u.unit.chunks)) }
    ensures table { IfOk result (λ u. table_of u.table ≡ table_by (nodes_of u.unit.chunks)) }
    ensures file { IfOk result (λ u. u.unit.file ≡ tokens.now.end.place.file) }
    ensures stopped { IfErr result (λ e. HasNoUnit names.now tokens.now e) }
{
    let Ok(stripped) = strip(alloc, tokens) else {
        return Err(Stopped::NoMemory);
    };
    let kept = place.insert(stripped);
    match read_typed(arena, alloc, kept) {
        Ok(unit) => Ok(unit),
        Err(refusal) => Err(refused(alloc, names, refusal)),
    }
}

/// The unit of a C file's bytes.
fn read_unit<'a>(
    arena: &'a Bump,
    alloc: Global,
    bytes: &[u8],
    number: u16,
    word: &[u8],
    place: &'a mut Option<Tokens>,
    names: &mut Names,
) -> Result<TypedUnit<'a>, Stopped>
    requires size { length bytes.now ≤ 16777216 }
    requires room { length names.old ≤ 2 ^ 30 }
    ensures ok { IfOk result (λ u. IsSource number word.now names.old names.new bytes.now (text_of u)) }
    ensures file { IfOk result (λ u. u.unit.file ≡ number) }
    ensures stopped { IfErr result (λ e. IsUnread (before_file (length bytes.now) names.old) (source_turn number word.now) bytes.now e) }
    ensures adds { AddsAtMost names.old names.new (length bytes.now + 1) }
    ensures distinct { HasNoRepeats names.new }
{
    let tokens = match read_tokens(alloc, bytes, Mode::C, number, word, names) {
        Ok(tokens) => tokens,
        Err(refusal) => return Err(refused(alloc, names, refusal)),
    };
    match type_tokens(arena, alloc, &tokens, place, names) {
        Ok(unit) => Ok(unit),
        Err(stopped) => Err(stopped),
    }
}

/// Reads and judges the C file with this number, of which at most `left` bytes may come.
pub(crate) fn load_source<'a, F: Files>(
    arena: &'a Bump,
    alloc: Global,
    files: &mut F,
    word: &str,
    number: u16,
    left: u64,
    place: &'a mut Option<Tokens>,
    names: &mut Names,
) -> Result<LoadedSource<'a>, Stopped>
    requires left { left ≤ 33554432 }
    requires room { length names.old ≤ 2 ^ 30 }
    ensures ok { IfOk result (λ l. HasLoadedSource (F.contents files.old word.now) (before_file left names.old) number names.new word.now l.size (text_of l.unit)) }
    ensures file { IfOk result (λ l. l.unit.unit.file ≡ number) }
    ensures stopped { IfErr result (λ e. AnswersStopped (F.contents files.old word.now) (before_file left names.old) (source_turn number word.now) e) }
    ensures adds { IfOk result (λ l. AddsAtMost names.old names.new (l.size + 1)) }
    ensures distinct { OnOk result (HasNoRepeats names.new) }
    ensures none_failed { IfOk result (λ l. F.failed files.new ≡ F.failed files.old) }
    ensures failed { IfErr result (λ e. F.failed files.new ≡ failed_after_stop (F.failed files.old) word.now e) }
    ensures same { F.contents files.new ≡ F.contents files.old }
    ensures readable { ReadsReadable (F.readable files.old) (F.failed files.old) (F.failed files.new) }
    ensures kept { F.readable files.new ≡ F.readable files.old }
{
    let bytes = match read_file(files, word, left) {
        Ok(bytes) => bytes,
        Err(Missing::NotRead) => return Err(Stopped::NotRead),
        Err(Missing::TooLarge) => return Err(at_start(alloc, word.as_bytes(), Fault::TooLarge)),
        Err(Missing::NoMemory) => return Err(Stopped::NoMemory),
    };
    let size = bytes.len() as u64;
    match read_unit(arena, alloc, &bytes, number, word.as_bytes(), place, names) {
        Ok(unit) => Ok(LoadedSource { unit, size }),
        Err(stopped) => Err(stopped),
    }
}

/// The units of C files, each with its position as the number of its file, and how many bytes may still come.
#[derive(Drop)]
pub struct SourcesRead<'a> {
    pub units: Vec<TypedUnit<'a>>,
    pub left: u64,
}

/// Reads the C files of these words, of which at most `left` bytes may come, and judges each before the next is read.
///
/// Trees stand in the arena, and the tokens that are kept of each file in a place of its own. Each byte of a file adds at most one
/// name, and its word one: which names stand behind them follows from the bytes.
pub fn read_sources<'a, F: Files>(
    arena: &'a Bump,
    alloc: Global,
    files: &mut F,
    words: &[&str],
    left: u64,
    places: &'a mut [Option<Tokens>],
    names: &mut Names,
) -> Result<SourcesRead<'a>, Unread>
    requires left { left ≤ 33554432 }
    requires few { length words.now ≤ 65535 }
    requires enough { length words.now ≤ length places.old }
    requires room { length names.old ≤ 2 ^ 28 }
    ensures read { IfOk result (λ r. AreReadSources (may_hold (F.contents files.old)) (before_file left names.old) (words_of words.now) (words_of words.now) (texts_of r.units.items) (before_file r.left names.new)) }
    ensures numbered { IfOk result (λ r. (i : ℕ) (u : UnitValue) → slice_get r.units.items i ≡ Some u → u.unit.file ≡ i) }
    ensures unread { IfErr result (λ e. AnswersUnread (may_hold (F.contents files.old)) (before_file left names.old) (numbered SourceFile 0 (words_of words.now)) (F.failed files.old) (F.failed files.new) e) }
    ensures none_failed { IfOk result (λ r. F.failed files.new ≡ F.failed files.old) }
    ensures same { F.contents files.new ≡ F.contents files.old }
    ensures readable { ReadsReadable (F.readable files.old) (F.failed files.old) (F.failed files.new) }
    ensures kept { F.readable files.new ≡ F.readable files.old }
    ensures distinct { OnOk result (HasNoRepeats names.new) }
{
    let mut units = Vec::new(alloc);
    let mut rest = left;
    let mut free = places.iter_mut();
    for word in words {
        let place = free.next().unwrap();
        let position = units.len();
        match load_source(
            arena,
            alloc,
            files,
            word,
            position as u16,
            rest,
            place,
            names,
        ) {
            Err(Stopped::NotRead) => return Err(Unread::NotRead(position)),
            Err(Stopped::Faulty(located)) => return Err(Unread::Faulty(position, located)),
            Err(Stopped::NoMemory) => return Err(Unread::NoMemory),
            Ok(loaded) => {
                rest -= loaded.size;
                let Ok(_) = units.push(loaded.unit) else {
                    return Err(Unread::NoMemory);
                };
            }
        }
    }
    // that no name stands twice is what `len` says of names
    let _count = names.len();
    Ok(SourcesRead { units, left: rest })
}
