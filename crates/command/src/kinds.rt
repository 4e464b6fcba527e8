//! The files of each kind, and where the tokens of each stand.

ghost use Rattle.std.specs.Prelude.{◌≡◌, ◌<◌, ◌+◌, filter, length, map, slice_get, string_bytes, IfOk, Some};
ghost use Rattle.command_words.specs.Words.{is_checker_word, is_source_word};
ghost use Rattle.request_files.specs.Turns.{Turn, turns};
ghost use Rattle.request_files.specs.Views.{words_of};

use c_lexer::Tokens;
use command_words::is_checker;
use std::alloc::{AllocError, Global};

/// The words of checkers among these, in order.
pub(crate) fn checkers_among<'a>(
    alloc: Global,
    files: &'a [String],
) -> Result<Vec<&'a str>, AllocError>
    ensures { IfOk result (λ checkers. words_of checkers.items ≡ filter is_checker_word (map string_bytes files.now)) }
{
    let mut checkers = Vec::new(alloc);
    for file in files {
        if is_checker(file) {
            checkers.push(file.as_str())?;
        }
    }
    Ok(checkers)
}

/// The words of C files among these, in order.
pub(crate) fn sources_among<'a>(
    alloc: Global,
    files: &'a [String],
) -> Result<Vec<&'a str>, AllocError>
    ensures { IfOk result (λ sources. words_of sources.items ≡ filter is_source_word (map string_bytes files.now)) }
{
    let mut sources = Vec::new(alloc);
    for file in files {
        if !is_checker(file) {
            sources.push(file.as_str())?;
        }
    }
    Ok(sources)
}

/// A place for the tokens of each of so many files, with nothing in it.
pub(crate) fn empty_places(alloc: Global, count: usize) -> Result<Vec<Option<Tokens>>, AllocError>
    ensures { IfOk result (λ places. length places.items ≡ count) }
{
    let mut places = Vec::new(alloc);
    while places.len() < count {
        places.push(None)?;
    }
    Ok(places)
}

/// The word of the file at a position, the checkers first.
pub(crate) fn word_at<'a>(checkers: &[&'a str], sources: &[&'a str], position: usize) -> &'a str
    requires { position < length checkers.now + length sources.now }
    ensures { (turn : Turn) → slice_get (turns (words_of checkers.now) (words_of sources.now)) position ≡ Some turn → turn.word ≡ result.now }
{
    if position < checkers.len() {
        return checkers[position];
    }
    sources[position - checkers.len()]
}
