//! Where rules begin and where they lead.

ghost use Rattle.std.specs.Prelude.{◌≡◌};
ghost use Rattle.path_model.specs.CheckerModel.Choices.{is_exit, target_at, from_global, from_object, leads_to_global, variable_of, global_behind, object_behind};
ghost use Rattle.flow_graph.specs.Values.{event_of};
ghost use Rattle.metal_tree.specs.MetalMachines.Machine.{ByTruth};
ghost use Rattle.metal_tree.specs.Views.{dest_view, source_view, target_view};

use flow_graph::Event;
use metal_tree::{Dest, Source, Target};

/// Whether an event is the end of a function.
pub fn is_exit(event: &Event) -> bool
    ensures { result ≡ is_exit (event_of event.now) }
{
    match event {
        Event::Node(_) => false,
        Event::Declare(_) => false,
        Event::Branch(_, _) => false,
        Event::Exit { .. } => true,
    }
}

// That of a split rule: the truth of the branch decides.
fn split_target(event: &Event, on_true: Target, on_false: Target) -> Target
    ensures { target_view result ≡ target_at (event_of event.now) (ByTruth (target_view on_true) (target_view on_false)) }
{
    match event {
        Event::Node(_) => on_true,
        Event::Declare(_) => on_true,
        Event::Branch(_, truth) => { if *truth { on_true } else { on_false } }
        Event::Exit { .. } => on_true,
    }
}

/// Where a rule leads at an event.
pub fn target_at(event: &Event, dest: &Dest) -> Target
    ensures { target_view result ≡ target_at (event_of event.now) (dest_view dest.now) }
{
    match dest {
        Dest::To(target) => *target,
        Dest::Split { on_true, on_false } => split_target(event, *on_true, *on_false),
    }
}

/// Whether a rule begins in this global state.
pub fn from_global(global: u16, source: Source) -> bool
    ensures { result ≡ from_global global (source_view source) }
{
    match source {
        Source::Global(state) => state == global,
        Source::Object { .. } => false,
    }
}

/// Whether a rule begins in this state of an object.
pub fn from_object(state: (u8, u16), source: Source) -> bool
    ensures { result ≡ from_object state (source_view source) }
{
    match source {
        Source::Global(_) => false,
        Source::Object {
            variable,
            state: number,
        } => variable == state.0 && number == state.1,
    }
}

/// Whether a target is a global state.
pub fn leads_to_global(target: Target) -> bool
    ensures { result ≡ leads_to_global (target_view target) }
{
    match target {
        Target::Global(_) => true,
        Target::Object { .. } => false,
        Target::Unknown { .. } => false,
    }
}

/// The variable of whose object a target speaks.
pub fn variable_of(target: Target) -> Option<u8>
    ensures { result ≡ variable_of (target_view target) }
{
    match target {
        Target::Global(_) => None,
        Target::Object { variable, .. } => Some(variable),
        Target::Unknown { variable } => Some(variable),
    }
}

/// The global state behind a rule that leads there.
pub fn global_behind(target: Target, global: u16) -> u16
    ensures { result ≡ global_behind (target_view target) global }
{
    match target {
        Target::Global(state) => state,
        Target::Object { .. } => global,
        Target::Unknown { .. } => global,
    }
}

/// The state of the object behind a rule that leads there.
pub fn object_behind(target: Target, state: Option<(u8, u16)>) -> Option<(u8, u16)>
    ensures { result ≡ object_behind (target_view target) state }
{
    match target {
        Target::Global(_) => state,
        Target::Object {
            variable,
            state: number,
        } => Some((variable, number)),
        Target::Unknown { .. } => None,
    }
}
