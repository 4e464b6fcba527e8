//! What rules bind in `start`. Where no rule leads to a global state each path stays in it, and nobody has to look for others.

ghost use Rattle.std.specs.Prelude.{◌≡◌, List, map, IfOk};
ghost use Rattle.std.specs.List.{list_all};
ghost use Rattle.block_flows.specs.Events.{AreOfEvents};
ghost use Rattle.flow_graph.specs.CPaths.Graphs.{Block};
ghost use Rattle.flow_graph.specs.Seen.{graph_in};
ghost use Rattle.function_tables.specs.Tables.{AreBlockTables, AreTables};
ghost use Rattle.least_set.specs.Logs.{Adds, IsExactly, SomeGives};
ghost use Rattle.metal_tree.specs.Views.{dest_view, rule_view, target_view};
ghost use Rattle.metal_tree.specs.Whole.{machine_view};
ghost use Rattle.path_model.specs.CheckerModel.Choices.{leads_to_global};
ghost use Rattle.path_model.specs.CheckerModel.Happenings.{Function, Happening};
ghost use Rattle.path_model.specs.CheckerModel.Reports.{Checker};
ghost use Rattle.suffix_summary.specs.InStart.{GivesBelow, GivesInBlock, GivesInFunction, GivesInStart, leads_globally, stays, stays_in_start};
ghost use Rattle.type_rules.specs.Functions.{Defined};
ghost use Rattle.typed_unit.specs.Texts.{Text};

use crate::met_states::events::{Frames, add_at_events};
use function_tables::{FunctionTable, item};
use metal_tree::{Dest, Machine, Rule, Target};
use objects::Object;
use state_tuples::EventRules;
use std::alloc::{AllocError, Global};

// Whether a target is a global state.
fn leads_to_global(target: Target) -> bool
    ensures { result ≡ leads_to_global (target_view target) }
{
    match target {
        Target::Global(_) => true,
        Target::Object { .. } => false,
        Target::Unknown { .. } => false,
    }
}

// Whether a rule may lead to a global state.
fn leads_globally(dest: &Dest) -> bool
    ensures { result ≡ leads_globally (dest_view dest.now) }
{
    match dest {
        Dest::To(target) => leads_to_global(*target),
        Dest::Split { on_true, on_false } => {
            leads_to_global(*on_true) || leads_to_global(*on_false)
        }
    }
}

// Whether it leads to none.
fn stays(rule: &Rule) -> bool
    ensures { result ≡ stays (rule_view rule.now) }
{
    !leads_globally(&rule.dest)
}

// Whether none of these does.
fn all_stay(rules: &[Rule]) -> bool
    ensures { result ≡ list_all (λ r. stays (rule_view r)) rules.now }
{
    rules.iter().all(|rule| stays(rule))
}

/// Whether no rule of a machine leads to a global state.
pub(crate) fn stays_in_start(machine: &Machine) -> bool
    ensures { result ≡ stays_in_start (machine_view machine.now) }
{
    all_stay(machine.rules)
}

// Puts last what takes a rule at one of these events in `start` while it is unknown, in frames of either kind.
fn add_in_start(
    alloc: Global,
    found: &mut Vec<(u32, Object)>,
    function: u32,
    rules: &[EventRules],
) -> Result<(), AllocError>
    ensures { IfOk result (λ _. (c : Checker) (f : Function) (hs : List Happening) → AreOfEvents c.machine c.depth f hs rules.now → Adds (GivesInStart c f hs function) found.old.items found.new.items) }
{
    let called = Frames {
        function,
        is_root: false,
    };
    let own = Frames {
        function,
        is_root: true,
    };
    add_at_events(alloc, found, rules, called, 0)?;
    add_at_events(alloc, found, rules, own, 0)
}

// Puts last what does in the blocks of the function with a number, which has this table.
fn add_in_function(
    alloc: Global,
    found: &mut Vec<(u32, Object)>,
    function: u32,
    table: &FunctionTable,
) -> Result<(), AllocError>
    ensures { IfOk result (λ _. (c : Checker) (ts : List Text) (d : Defined) (bs : List Block) → AreBlockTables c.machine c.depth ts d bs table.now.blocks.items → Adds (SomeGives (GivesInBlock c ts d function) bs) found.old.items found.new.items) }
{
    for block in table.blocks.as_slice() {
        add_in_start(alloc, found, function, block.rules.as_slice())?;
    }
    Ok(())
}

// The same of the function with a number, if there is one.
fn add_at(
    alloc: Global,
    found: &mut Vec<(u32, Object)>,
    tables: &[FunctionTable],
    function: u32,
) -> Result<(), AllocError>
    ensures { IfOk result (λ _. (c : Checker) (ts : List Text) → AreTables c.machine c.depth ts tables.now → Adds (GivesInFunction c ts (map (λ t. graph_in t.graph.now) tables.now) function) found.old.items found.new.items) }
{
    match item(tables, function) {
        Some(table) => add_in_function(alloc, found, function, table),
        None => Ok(()),
    }
}

/// The objects that rules bind in `start` in the first functions, so many, each with the number of its function: those that take a rule there
/// while they are unknown, at whatever event. One may stand there more than once. The only fault is want of memory.
pub(crate) fn bound_in_start(
    alloc: Global,
    tables: &[FunctionTable],
    count: u32,
) -> Result<Vec<(u32, Object)>, AllocError>
    ensures { IfOk result (λ list. (c : Checker) (ts : List Text) → AreTables c.machine c.depth ts tables.now → IsExactly list.items (GivesBelow c ts (map (λ t. graph_in t.graph.now) tables.now) count)) }
{
    let mut found = Vec::new(alloc);
    for function in 0..count {
        add_at(alloc, &mut found, tables, function)?;
    }
    Ok(found)
}
