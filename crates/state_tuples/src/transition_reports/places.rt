//! Where events stand in the text.

ghost use Rattle.std.specs.Prelude.{◌≡◌};
ghost use Rattle.std.specs.Option.{option_copied};
ghost use Rattle.flow_graph.specs.CPaths.EventPlaces.{event_place};
ghost use Rattle.c_tree.specs.Views.{node_of};
ghost use Rattle.path_model.specs.CheckerModel.Reports.{token_at};
ghost use Rattle.flow_graph.specs.Values.{event_of};
ghost use Rattle.c_tree.specs.PathSubjects.Subjects.{tree_place, subject_place};
ghost use Rattle.c_tree.specs.PathSubjects.Values.{subject_of};

use c_tree::{Initializer, Kind, Place, Subject, Token, Tree};
use flow_graph::Event;
use hole_matcher::from_place;
use typed_unit::TypedUnit;

// The place of a tree: the initializer of a name stands at that name (ISO 9899:1990, 6.5.7).
fn tree_place(tree: &Tree) -> Place
    ensures { result ≡ tree_place (node_of tree.now) }
{
    match &tree.kind {
        Kind::Initializer(Initializer::Init { name, .. }) => name.first,
        _ => tree.first,
    }
}

// The place of a subject.
fn subject_place(subject: Subject) -> Place
    ensures { result ≡ subject_place (subject_of subject.entry) }
{
    match subject {
        Subject::Tree(tree) => tree_place(tree),
        Subject::DerefOf(pointer) => pointer.first,
    }
}

// The place of an event.
fn event_place(event: &Event) -> Place
    ensures { result ≡ event_place (event_of event.now) }
{
    match event {
        Event::Node(subject) => subject_place(*subject),
        Event::Declare(variable) => variable.place,
        Event::Branch(condition, _) => tree_place(condition),
        Event::Exit { place, .. } => *place,
    }
}

/// The token of a unit at which an event stands, if one stands there.
pub(crate) fn token_of<'a>(unit: &TypedUnit<'a>, event: &Event) -> Option<&'a Token>
    ensures { option_copied result ≡ token_at (event_place (event_of event.now)) unit.now.unit.tokens.now }
{
    from_place(unit, event_place(event)).first()
}
