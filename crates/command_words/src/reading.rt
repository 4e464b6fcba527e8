//! The words of the command, read one after the other.

ghost use Rattle.std.specs.Prelude.{◌≡◌, ◌+◌, ◌<◌, ◌^◌, List, ◌∷◌, length, map, drop, cond, string_bytes, None, IfSome};
ghost use Rattle.std.specs.List.{list_any};
ghost use Rattle.std.specs.Option.{option_map};
ghost use Rattle.command_words.specs.Words.{is_option, are_few, Request, IsRequest};
ghost use Rattle.command_words.specs.Ways.Reading.{finished, plainly_finished, reading, nothing_chosen};
ghost use Rattle.command_words.specs.Views.{chosen_in, request_of};

use crate::asked::Asked;
use crate::given::{Given, Turn, taken};
use crate::words::{is_checker, is_option};

/// The word with this number.
fn word_at(words: &[String], index: usize) -> &str
    requires { index < length words.now }
    ensures { map string_bytes (drop index words.now) ≡ result.now ∷ map string_bytes (drop (index + 1) words.now) }
{
    words[index].as_str()
}

/// One more than so many, where it is there.
fn one_more(count: usize, there: bool) -> usize
    requires { count + 1 < 2 ^ 64 }
    ensures { result ≡ count + cond there 1 0 }
{
    if there { count + 1 } else { count }
}

/// Whether there are at most 16 checkers and 1 to 64 C files.
fn are_few(files: &[String]) -> bool
    ensures { result ≡ are_few (map string_bytes files.now) }
{
    let mut checkers = 0;
    let mut sources = 0;
    let mut index = 0;
    while index < files.len() {
        let checker = is_checker(word_at(files, index));
        checkers = one_more(checkers, checker);
        sources = one_more(sources, !checker);
        index += 1;
    }
    checkers <= 16 && (sources >= 1 && sources <= 64)
}

/// Whether one of the words is an option.
fn has_option(files: &[String]) -> bool
    ensures { result ≡ list_any is_option (map string_bytes files.now) }
{
    let mut index = 0;
    while index < files.len() {
        if is_option(word_at(files, index).as_bytes()) {
            return true;
        }
        index += 1;
    }
    false
}

/// What is asked for of these files, if their numbers are right.
fn finished<'a>(given: Given<'a>, files: &'a [String]) -> Option<Asked<'a>>
    ensures { option_map request_of result ≡ finished (chosen_in given.entry) (map string_bytes files.now) }
{
    if are_few(files) {
        return Some(Asked {
            depth: given.depth.unwrap_or(4),
            format: given.format,
            stats: given.stats,
            files,
        });
    }
    None
}

/// The same where no `--` stands before the files.
fn plainly_finished<'a>(given: Given<'a>, files: &'a [String]) -> Option<Asked<'a>>
    ensures { option_map request_of result ≡ plainly_finished (chosen_in given.entry) (map string_bytes files.now) }
{
    if has_option(files) {
        return None;
    }
    finished(given, files)
}

fn read<'a>(words: &'a [String]) -> Option<Asked<'a>>
    ensures { option_map request_of result ≡ reading nothing_chosen (map string_bytes words.now) }
{
    let mut given = Given::nothing();
    let mut index = 0;
    while index < words.len() {
        let next = match taken(given, word_at(words, index).as_bytes()) {
            Turn::Next(next) => next,
            Turn::File => {
                let (_, files) = words.split_at(index);
                return plainly_finished(given, files);
            }
            Turn::End => {
                let (_, files) = words.split_at(index + 1);
                return finished(given, files);
            }
            Turn::Wrong => return None,
        };
        given = next;
        index += 1;
    }
    None
}

/// What the words ask for; `None` exactly where they stand for no request. It takes no memory.
pub fn read_asked<'a>(words: &'a [String]) -> Option<Asked<'a>>
    ensures request { IfSome result (λ asked. IsRequest (map string_bytes words.now) (request_of asked)) }
    ensures only { IfSome result (λ asked. (request : Request) → IsRequest (map string_bytes words.now) request → request ≡ request_of asked) }
    ensures none { result ≡ None → (request : Request) → IsRequest (map string_bytes words.now) request → ⊥ }
{
    read(words)
}
