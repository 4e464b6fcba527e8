//! The rules of the events of a block.

ghost use Rattle.std.specs.Prelude.{◌≤◌, map, IfOk};
ghost use Rattle.function_tables.specs.Rules.{AreOfEvents};
ghost use Rattle.metal_tree.specs.Whole.{machine_view};
ghost use Rattle.state_tuples.specs.Values.{happening_in, function_of};

use flow_graph::Event;
use metal_tree::Machine;
use state_tuples::{EventRules, Frame};
use std::alloc::{AllocError, Global};
use typed_unit::TypedUnit;

// The rules of these events, which stand in a function of the unit.
pub(crate) fn rules_of<'u, 'a>(
    alloc: Global,
    machine: &Machine<'u>,
    unit: &'u TypedUnit<'a>,
    frame: &Frame,
    depth: u8,
    events: &[Event<'a>],
) -> Result<Vec<EventRules<'u, 'a>>, AllocError>
    requires { depth ≤ 8 }
    ensures { IfOk result (λ rules. AreOfEvents (machine_view machine.now) depth (function_of frame.now) (map (happening_in unit.now) events.now) rules.items) }
{
    let mut rules = Vec::with_capacity(alloc, events.len())?;
    for event in events {
        let applied = EventRules::new(alloc, machine, *event, unit, frame, depth)?;
        rules.push(applied)?;
    }
    Ok(rules)
}
