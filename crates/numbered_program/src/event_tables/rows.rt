//! The rows of the events of a block.

ghost use Rattle.std.specs.Prelude.{◌≡◌, ℕ, List, IfOk};
ghost use Rattle.block_flows.specs.Events.{AreOfEvents};
ghost use Rattle.block_flows.specs.TupleFlows.Moved.{AreObjects};
ghost use Rattle.numbered_program.specs.EventTables.ObjectIndex.{IsIndexOf};
ghost use Rattle.numbered_program.specs.EventTables.Rows.{AreEventRows, IsEventRow};
ghost use Rattle.flow_graph.specs.Values.{event_of};
ghost use Rattle.metal_tree.specs.MetalMachines.Machine.{Machine as Form};
ghost use Rattle.path_model.specs.CheckerModel.Choices.{is_exit};
ghost use Rattle.path_model.specs.CheckerModel.Happenings.{Function, Happening};
ghost use Rattle.state_tuples.specs.AppliedRules.Events.{AreOfEvent};

use crate::event_tables::alternatives::alternative_rows;
use crate::event_tables::object_index::ObjectIndex;
use crate::event_tables::touched::touched_rows;
use crate::numbered_tuples::Numbering;
use flow_graph::Event;
use row_flows::{BlockRows, EventRow};
use state_tuples::EventRules;
use std::alloc::{AllocError, Global};

// Whether an event is the end of a function.
fn is_exit(event: &Event) -> bool
    ensures { result ≡ is_exit (event_of event.now) }
{
    match event {
        Event::Node(_) => false,
        Event::Declare(_) => false,
        Event::Branch(_, _) => false,
        Event::Exit { .. } => true,
    }
}

/// The row of an event of a function in which these objects are followed.
pub fn event_row(
    alloc: Global,
    numbering: &Numbering,
    index: &ObjectIndex,
    rules: &EventRules,
) -> Result<EventRow, AllocError>
    ensures { IfOk result (λ row. (m : Form) (depth : ℕ) (h : Happening) (f : Function) → AreOfEvent m depth h f rules.now → IsIndexOf numbering.now.objects.now.keys index.now → AreObjects depth numbering.now.objects.now.keys → IsEventRow m depth h f numbering.now.objects.now.keys numbering.now.states.now.states.keys row) }
{
    let setting = &rules.setting;
    let touched = touched_rows(
        alloc,
        numbering,
        index,
        &rules.event,
        setting.unit,
        setting.depth,
    )?;
    let applied = alternative_rows(alloc, numbering, rules)?;
    Ok(EventRow {
        touched,
        applied,
        is_exit: is_exit(&rules.event),
    })
}

/// The rows of the events of a block, in their order.
pub fn event_rows(
    alloc: Global,
    numbering: &Numbering,
    index: &ObjectIndex,
    rules: &[EventRules],
) -> Result<Vec<EventRow>, AllocError>
    ensures { IfOk result (λ rows. (m : Form) (depth : ℕ) (hs : List Happening) (f : Function) → AreOfEvents m depth f hs rules.now → IsIndexOf numbering.now.objects.now.keys index.now → AreObjects depth numbering.now.objects.now.keys → AreEventRows m depth f numbering.now.objects.now.keys numbering.now.states.now.states.keys hs rows.items) }
{
    let mut rows = Vec::with_capacity(alloc, rules.len())?;
    for event in rules {
        let row = event_row(alloc, numbering, index, event)?;
        rows.push(row)?;
    }
    Ok(rows)
}

/// A block with events of these rules: their rows, in their order.
pub fn block_rows(
    alloc: Global,
    numbering: &Numbering,
    index: &ObjectIndex,
    rules: &[EventRules],
) -> Result<BlockRows, AllocError>
    ensures { IfOk result (λ block. (m : Form) (depth : ℕ) (hs : List Happening) (f : Function) → AreOfEvents m depth f hs rules.now → IsIndexOf numbering.now.objects.now.keys index.now → AreObjects depth numbering.now.objects.now.keys → AreEventRows m depth f numbering.now.objects.now.keys numbering.now.states.now.states.keys hs block.rows.items) }
{
    let rows = event_rows(alloc, numbering, index, rules)?;
    BlockRows::new(alloc, rows)
}
