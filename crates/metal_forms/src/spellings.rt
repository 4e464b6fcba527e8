//! Whether the words of declarations, destinations and actions are those of the language.

ghost use Rattle.std.specs.Prelude.{◌≡◌, map};
ghost use Rattle.metal_grammar.specs.Grammar.{spelled_if, are_identifiers, is_action, is_destination};
ghost use Rattle.metal_written.specs.Written.{identifier_view, maybe_action_view, destination_view};

use metal_written::{Destination, Identifier, WrittenAction, is_spelled};
use mx_base::Names;

/// Whether the word, if there is one, is spelled so.
pub(crate) fn spelled_if(names: &Names, text: &[u8], word: Option<u32>) -> bool
    ensures { result ≡ spelled_if names.now text.now word }
{
    match word {
        None => true,
        Some(word) => is_spelled(names, text, word),
    }
}

/// Whether the words of these arguments are `mc_identifier`.
#[tactic(auto, using(metal_written::proofs::Any::anys))]
fn are_identifiers(names: &Names, arguments: &[Identifier]) -> bool
    ensures { result ≡ are_identifiers names.now (map identifier_view arguments.now) }
{
    for argument in arguments {
        if !is_spelled(names, b"mc_identifier", argument.word) {
            return false;
        }
    }
    true
}

/// Whether the words of an action are those of the language.
pub(crate) fn is_action(names: &Names, action: Option<WrittenAction>) -> bool
    ensures { result ≡ is_action names.now (maybe_action_view action.entry) }
{
    match action {
        None => true,
        Some(action) => is_spelled(names, b"err", action.word)
            && are_identifiers(names, action.arguments),
    }
}

/// Whether the words of a split are `true` and `false`.
pub(crate) fn is_destination(names: &Names, destination: Destination) -> bool
    ensures { result ≡ is_destination names.now (destination_view destination) }
{
    match destination {
        Destination::To(_) => true,
        Destination::Split {
            true_word,
            false_word,
            ..
        } => is_spelled(names, b"true", true_word) && is_spelled(names, b"false", false_word),
    }
}
