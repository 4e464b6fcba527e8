//! The states behind events.

ghost use Rattle.std.specs.Prelude.{◌≡◌, ◌≤◌};
ghost use Rattle.path_model.specs.CheckerModel.Choices.{next_global, chosen};
ghost use Rattle.metal_tree.specs.Whole.{machine_view};
ghost use Rattle.state_tuples.specs.Tuples.{state_behind};
ghost use Rattle.state_tuples.specs.Values.{happening_in, function_of};

use crate::choices::{fired, fired_global};
use crate::frame::Frame;
use crate::targets::{global_behind, object_behind, target_at};
use crate::tuple::Tuple;
use flow_graph::Event;
use metal_tree::Machine;
use objects::{Object, copy};
use typed_unit::TypedUnit;

/// The global state behind an event. It takes no memory.
pub fn next_global<'m, 'a>(
    machine: &Machine<'m>,
    event: &Event<'a>,
    unit: &'m TypedUnit<'a>,
    frame: &Frame,
    depth: u8,
    global: u16,
) -> u16
    requires { depth ≤ 8 }
    ensures { result ≡ next_global (machine_view machine.now) depth (happening_in unit.now event.now) (function_of frame.now) frame.now.is_root global }
{
    match fired_global(machine, event, unit, frame, depth, global) {
        Some(taken) => global_behind(target_at(event, &taken.rule.dest), global),
        None => global,
    }
}

/// The state of an object behind an event, by its state behind the event's move; `None` where it is unknown. It takes no memory.
pub fn next_state<'m, 'a>(
    machine: &Machine<'m>,
    event: &Event<'a>,
    unit: &'m TypedUnit<'a>,
    frame: &Frame,
    depth: u8,
    global: u16,
    object: &Object,
    state: Option<(u8, u16)>,
) -> Option<(u8, u16)>
    requires { depth ≤ 8 }
    ensures { result ≡ chosen (machine_view machine.now) depth (happening_in unit.now event.now) (function_of frame.now) frame.now.is_root global object.now state }
{
    match fired(machine, event, unit, frame, depth, global, object, state) {
        Some(taken) => object_behind(target_at(event, &taken.rule.dest), state),
        None => state,
    }
}

/// The tuple behind an event, by the states behind the event's move, which is no part of this step. It takes no memory.
pub fn next_tuple<'m, 'a>(
    machine: &Machine<'m>,
    event: &Event<'a>,
    unit: &'m TypedUnit<'a>,
    frame: &Frame,
    tuple: &Tuple,
    depth: u8,
) -> Tuple
    requires { depth ≤ 8 }
    ensures global { result.global ≡ next_global (machine_view machine.now) depth (happening_in unit.now event.now) (function_of frame.now) frame.now.is_root tuple.now.global }
    ensures object { result.object ≡ tuple.now.object }
    ensures state { result.state ≡ state_behind (machine_view machine.now) depth (happening_in unit.now event.now) (function_of frame.now) frame.now.is_root tuple.now }
{
    let global = next_global(machine, event, unit, frame, depth, tuple.global);
    match &tuple.object {
        Some(object) => {
            let state = next_state(
                machine,
                event,
                unit,
                frame,
                depth,
                tuple.global,
                object,
                tuple.state,
            );
            Tuple {
                global,
                object: Some(copy(object)),
                state,
            }
        }
        None => Tuple {
            global,
            object: None,
            state: tuple.state,
        },
    }
}
