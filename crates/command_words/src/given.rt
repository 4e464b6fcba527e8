//! What was set so far by the words of the command, and what one more word makes of it.

ghost use Rattle.std.specs.Prelude.{◌≡◌};
ghost use Rattle.std.specs.Option.{option_copied};
ghost use Rattle.command_words.specs.Ways.Reading.{behind, depth_of, depth_turn, format_turn, stats_turn, joined_turn, option_turn, turn_for, turn_of, nothing_chosen};
ghost use Rattle.command_words.specs.Views.{chosen_in, turn_in};

use crate::words::{is_option, starts_with_minus};

/// What the next word is to be.
#[derive(Clone, Copy)]
pub(crate) enum Waits {
    /// An option or the first FILE.
    ForOption,
    /// The value of `--depth`.
    ForDepth,
    /// The value of `--format`.
    ForFormat,
}

/// What was set so far, and what the next word is to be.
#[derive(Clone, Copy)]
pub(crate) struct Given<'a> {
    pub waits: Waits,
    pub depth: Option<u8>,
    pub format: Option<&'a [u8]>,
    pub stats: bool,
}

/// What a word is behind what was set so far.
pub(crate) enum Turn<'a> {
    /// A setting or a part of one; with it this is set.
    Next(Given<'a>),
    /// The first FILE.
    File,
    /// `--` before the first FILE.
    End,
    /// It may not stand there.
    Wrong,
}

impl<'a> Given<'a> {
    /// Before the first word.
    pub(crate) fn nothing() -> Given<'a>
        ensures { chosen_in result ≡ nothing_chosen }
    {
        Given {
            waits: Waits::ForOption,
            depth: None,
            format: None,
            stats: false,
        }
    }
}

/// The depth that a word spells: one digit from 0 to 8.
fn depth_of(word: &[u8]) -> Option<u8>
    ensures { result ≡ depth_of word.now }
{
    match word {
        [digit @ b'0'..=b'8'] => Some(*digit - b'0'),
        _ => None,
    }
}

/// What stands behind the start of a word.
fn behind<'a>(start: &[u8], word: &'a [u8]) -> Option<&'a [u8]>
    ensures { option_copied result ≡ behind start.now word.now }
{
    if word.len() < start.len() {
        return None;
    }
    let (front, value) = word.split_at(start.len());
    if front == start {
        return Some(value);
    }
    None
}

fn depth_turn<'a>(given: Given<'a>, depth: Option<u8>) -> Turn<'a>
    ensures { turn_in result ≡ depth_turn given.entry.depth (option_copied given.entry.format) given.entry.stats depth }
{
    if given.depth.is_some() {
        return Turn::Wrong;
    }
    match depth {
        Some(depth) => Turn::Next(Given {
            waits: Waits::ForOption,
            depth: Some(depth),
            format: given.format,
            stats: given.stats,
        }),
        None => Turn::Wrong,
    }
}

fn format_turn<'a>(given: Given<'a>, name: &'a [u8]) -> Turn<'a>
    ensures { turn_in result ≡ format_turn given.entry.depth (option_copied given.entry.format) given.entry.stats name.now }
{
    match given.format {
        Some(_) => Turn::Wrong,
        None => Turn::Next(Given {
            waits: Waits::ForOption,
            depth: given.depth,
            format: Some(name),
            stats: given.stats,
        }),
    }
}

fn stats_turn<'a>(given: Given<'a>) -> Turn<'a>
    ensures { turn_in result ≡ stats_turn given.entry.depth (option_copied given.entry.format) given.entry.stats }
{
    if given.stats {
        return Turn::Wrong;
    }
    Turn::Next(Given {
        waits: Waits::ForOption,
        depth: given.depth,
        format: given.format,
        stats: true,
    })
}

/// An option with its value behind a `=`.
fn joined_turn<'a>(given: Given<'a>, word: &'a [u8]) -> Turn<'a>
    ensures { turn_in result ≡ joined_turn given.entry.depth (option_copied given.entry.format) given.entry.stats word.now }
{
    if let Some(value) = behind(b"--depth=", word) {
        return depth_turn(given, depth_of(value));
    }
    if let Some(name) = behind(b"--format=", word) {
        return format_turn(given, name);
    }
    Turn::Wrong
}

fn waiting<'a>(given: Given<'a>, waits: Waits) -> Turn<'a>
    ensures { turn_in result ≡ turn_for waits given.entry.depth (option_copied given.entry.format) given.entry.stats }
{
    Turn::Next(Given {
        waits,
        depth: given.depth,
        format: given.format,
        stats: given.stats,
    })
}

fn option_turn<'a>(given: Given<'a>, word: &'a [u8]) -> Turn<'a>
    ensures { turn_in result ≡ option_turn given.entry.depth (option_copied given.entry.format) given.entry.stats word.now }
{
    if word == b"--".as_slice() {
        return Turn::End;
    }
    if word == b"--stats".as_slice() {
        return stats_turn(given);
    }
    if word == b"--depth".as_slice() {
        return waiting(given, Waits::ForDepth);
    }
    if word == b"--format".as_slice() {
        return waiting(given, Waits::ForFormat);
    }
    joined_turn(given, word)
}

/// What a word is behind what was set so far.
pub(crate) fn taken<'a>(given: Given<'a>, word: &'a [u8]) -> Turn<'a>
    ensures { turn_in result ≡ turn_of (chosen_in given.entry) word.now }
{
    match given.waits {
        Waits::ForOption => {
            if is_option(word) {
                return option_turn(given, word);
            }
            Turn::File
        }
        Waits::ForDepth => depth_turn(given, depth_of(word)),
        Waits::ForFormat => {
            if starts_with_minus(word) {
                return Turn::Wrong;
            }
            format_turn(given, word)
        }
    }
}
