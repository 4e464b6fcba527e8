//! The spellings of what holes took.

ghost use Rattle.std.specs.Prelude.{◌≡◌, [], ◌++◌, List, ℕ, take};
ghost use Rattle.std.specs.Option.{option_map};
ghost use Rattle.c_tree.specs.Views.{node_of, nodes_in};
ghost use Rattle.hole_matcher.specs.HoleBindings.Bindings.{taken_of};
ghost use Rattle.hole_matching.specs.Message.{subject_spelled, all_spelled, later_spelled, taken_spelled, slot_written};
ghost use Rattle.hole_matching.specs.Subjects.{trees};
ghost use Rattle.hole_matcher.specs.HoleMessages.Beginnings.{shown, most_kept, names_spelled};
ghost use Rattle.hole_matcher.specs.HoleMessages.Sources.{source_of};
ghost use Rattle.c_tree.specs.PathSubjects.Subjects.{Tree as TreeSubject};
ghost use Rattle.c_tree.specs.PathSubjects.Values.{subject_of};

use crate::hole_bindings::Taken;
use crate::hole_messages::names::name_text;
use crate::hole_messages::places::from_place;
use crate::hole_messages::spelled::Spelled;
use c_tree::{Subject, Token, Tree, tree_tokens};
use mx_base::Names;
use typed_unit::TypedUnit;

/// What messages are written from: the texts of names, and the unit, whose tokens they are.
#[derive(Clone, Copy)]
pub(crate) struct Source<'s, 'a> {
    pub names: &'s Names,
    pub unit: &'s TypedUnit<'a>,
}

// Appends the spellings of tokens.
fn push_tokens(names: &Names, tokens: &[Token], into: &mut Spelled)
    ensures { (rest : List (List ℕ)) → shown into.new rest ≡ shown into.old (names_spelled names.now tokens.now ++ rest) }
{
    for token in tokens {
        into.push(name_text(names, token.name));
    }
}

// Appends those of a tree.
fn push_tree(source: &Source, tree: &Tree, into: &mut Spelled)
    ensures { (rest : List (List ℕ)) → shown into.new rest ≡ shown into.old (subject_spelled (source_of source.now) (TreeSubject (node_of tree.now)) ++ rest) }
{
    let tokens = tree_tokens(tree, from_place(source.unit, tree.first));
    push_tokens(source.names, tokens, into);
}

// Appends those of a subject; a `*x` that is read out of `x->f` has a `*` before those of `x`.
fn push_subject(source: &Source, subject: Subject, into: &mut Spelled)
    ensures { (rest : List (List ℕ)) → shown into.new rest ≡ shown into.old (subject_spelled (source_of source.now) (subject_of subject.entry) ++ rest) }
{
    match subject {
        Subject::Tree(tree) => push_tree(source, tree, into),
        Subject::DerefOf(pointer) => {
            into.push(b"*");
            push_tree(source, pointer, into);
        }
    }
}

// Appends those of arguments, each behind a comma.
fn push_later(source: &Source, arguments: &[Tree], into: &mut Spelled)
    ensures { (rest : List (List ℕ)) → shown into.new rest ≡ shown into.old (later_spelled (source_of source.now) (trees (nodes_in arguments.now)) ++ rest) }
{
    for argument in arguments {
        into.push(b",");
        push_tree(source, argument, into);
    }
}

// Appends those of arguments, with commas between them.
fn push_arguments(source: &Source, arguments: &[Tree], into: &mut Spelled)
    ensures { (rest : List (List ℕ)) → shown into.new rest ≡ shown into.old (all_spelled (source_of source.now) (trees (nodes_in arguments.now)) ++ rest) }
{
    if let [first, later @ ..] = arguments {
        push_tree(source, first, into);
        push_later(source, later, into);
    }
}

// Appends those of what a hole took.
fn push_taken(source: &Source, taken: Taken, into: &mut Spelled)
    ensures { (rest : List (List ℕ)) → shown into.new rest ≡ shown into.old (taken_spelled (source_of source.now) (taken_of taken.entry) ++ rest) }
{
    match taken {
        Taken::One(subject) => push_subject(source, subject, into),
        Taken::Many(arguments) => push_arguments(source, arguments, into),
    }
}

/// The beginning of the text of what a hole took, if it took anything.
pub(crate) fn slot_text(source: &Source, taken: Option<Taken>) -> Spelled
    ensures { shown result [] ≡ take most_kept (slot_written (source_of source.now) (option_map taken_of taken.entry)) }
{
    let mut text = Spelled::new();
    if let Some(taken) = taken {
        push_taken(source, taken, &mut text);
    }
    text
}
