//! Where rules begin and where they lead at an event, by number.

ghost use Rattle.std.specs.Prelude.{◌≡◌};
ghost use Rattle.numbered_program.specs.EventTables.RuleEnds.{numbered_source, numbered_target, variable_asked};
ghost use Rattle.flow_graph.specs.Values.{event_of};
ghost use Rattle.metal_tree.specs.MetalMachines.Machine.{ByTruth};
ghost use Rattle.metal_tree.specs.Views.{dest_view, source_view, target_view};
ghost use Rattle.path_model.specs.CheckerModel.Choices.{target_at, variable_of};

use crate::numbered_tuples::ObjectStates;
use flow_graph::Event;
use metal_tree::{Dest, Source, Target};
use row_flows::{NumberedSource, NumberedTarget};

// Where a rule begins.
pub(crate) fn numbered_source(states: &ObjectStates, source: Source) -> NumberedSource
    ensures { result ≡ numbered_source states.now.states.keys (source_view source) }
{
    match source {
        Source::Global(state) => NumberedSource::Global(state),
        Source::Object { variable, state } => {
            NumberedSource::Object(states.number((variable, state)))
        }
    }
}

// A target.
pub(crate) fn numbered_target(states: &ObjectStates, target: Target) -> NumberedTarget
    ensures { result ≡ numbered_target states.now.states.keys (target_view target) }
{
    match target {
        Target::Global(state) => NumberedTarget::Global(state),
        Target::Object { variable, state } => {
            NumberedTarget::Object(states.number((variable, state)))
        }
        Target::Unknown { .. } => NumberedTarget::Object(0),
    }
}

// That of a split rule: the truth of the branch decides.
fn split_target(event: &Event, on_true: Target, on_false: Target) -> Target
    ensures { target_view result ≡ target_at (event_of event.now) (ByTruth (target_view on_true) (target_view on_false)) }
{
    match event {
        Event::Node(_) => on_true,
        Event::Declare(_) => on_true,
        Event::Branch(_, truth) => { if *truth { on_true } else { on_false } }
        Event::Exit { .. } => on_true,
    }
}

// Where a rule leads at an event.
pub(crate) fn target_at(event: &Event, dest: &Dest) -> Target
    ensures { target_view result ≡ target_at (event_of event.now) (dest_view dest.now) }
{
    match dest {
        Dest::To(target) => *target,
        Dest::Split { on_true, on_false } => split_target(event, *on_true, *on_false),
    }
}

// The variable of whose object a target speaks.
fn variable_of(target: Target) -> Option<u8>
    ensures { result ≡ variable_of (target_view target) }
{
    match target {
        Target::Global(_) => None,
        Target::Object { variable, .. } => Some(variable),
        Target::Unknown { variable } => Some(variable),
    }
}

// The variable of whose object a rule is asked that begins there and leads there at an event.
pub(crate) fn variable_asked(source: Source, target: Target) -> Option<u8>
    ensures { result ≡ variable_asked (source_view source) (target_view target) }
{
    match source {
        Source::Global(_) => variable_of(target),
        Source::Object { variable, .. } => Some(variable),
    }
}
