//! The rules that the global state and objects take at events (Hallem, Chelf, Xie and Engler, PLDI 2002: the transitions of a checker).

ghost use Rattle.std.specs.Prelude.{◌≡◌, ◌≤◌, IfSome};
ghost use Rattle.std.specs.Option.{option_map};
ghost use Rattle.path_model.specs.CheckerModel.Choices.{is_asked, is_global_asked, scene, taken, taken_global};
ghost use Rattle.hole_matching.specs.Callouts.{is_local};
ghost use Rattle.flow_graph.specs.Values.{event_of};
ghost use Rattle.metal_tree.specs.Whole.{machine_view};
ghost use Rattle.state_tuples.specs.RuleChoices.Asked.{GlobalState, ObjectIn};
ghost use Rattle.state_tuples.specs.RuleChoices.Firsts.{IsByFirst};
ghost use Rattle.state_tuples.specs.RuleChoices.Values.{asker_of, taken_of};
ghost use Rattle.state_tuples.specs.Numbers.{IsRuleOf};
ghost use Rattle.state_tuples.specs.Values.{happening_in, function_of};

use crate::frame::Frame;
use crate::rule_choices::{Asked, Fired, first_rule};
use crate::targets::is_exit;
use flow_graph::Event;
use hole_matcher::Setting;
use metal_tree::{Machine, STOP};
use objects::Object;
use type_values::Var;
use typed_unit::TypedUnit;

// Whether an object's path goes from a variable of a block with automatic storage (ISO 9899:1990, 6.1.2.4).
fn is_local(object: &Object) -> bool
    ensures { result ≡ is_local object.now.base }
{
    match object.base() {
        Var::Local { .. } => true,
        _ => false,
    }
}

/// Whether an object is asked at an event. At the end of a called function none but those of its own variables are.
pub fn is_asked(event: &Event, is_root: bool, object: &Object) -> bool
    ensures { result ≡ is_asked (event_of event.now) is_root object.now }
{
    !is_exit(event) || is_root || is_local(object)
}

/// Whether the global state is asked at an event. At the end of a called function it isn't.
pub fn is_global_asked(event: &Event, is_root: bool) -> bool
    ensures { result ≡ is_global_asked (event_of event.now) is_root }
{
    !is_exit(event) || is_root
}

/// The rule that the global state takes at an event, where objects have at most `depth` steps. It takes no memory.
#[tactic(auto, using(crate::proofs::Scenes::global_taken, crate::proofs::Scenes::same_first))]
pub fn fired_global<'m, 'a>(
    machine: &Machine<'m>,
    event: &Event<'a>,
    unit: &'m TypedUnit<'a>,
    frame: &Frame,
    depth: u8,
    global: u16,
) -> Option<Fired<'m, 'a>>
    requires { depth ≤ 8 }
    ensures taken { option_map taken_of result ≡ taken_global (machine_view machine.now) depth (happening_in unit.now event.now) (function_of frame.now) frame.now.is_root global }
    ensures rule { IfSome result (λ f. IsRuleOf machine.now f.rule.now) }
    ensures first { IfSome result (IsByFirst (scene (machine_view machine.now) depth (happening_in unit.now event.now) (function_of frame.now)) (event_of event.now) GlobalState) }
{
    if global == STOP || !is_global_asked(event, frame.is_root) {
        return None;
    }
    let setting = Setting::new(machine, unit, frame.name, depth);
    first_rule(&setting, event, global, Asked::Global, machine.rules)
}

/// Who is asked, for an object in this state; `None` where that is unknown.
pub fn asked_object<'o>(object: &'o Object, state: Option<(u8, u16)>) -> Asked<'o>
    ensures { asker_of result ≡ ObjectIn object.now state }
{
    match state {
        Some(state) => Asked::Known { object, state },
        None => Asked::Unknown(object),
    }
}

/// The rule that an object takes at an event, by its state behind the event's move; `None` where that is unknown. Objects have at most
/// `depth` steps. It takes no memory.
#[tactic(auto, using(crate::proofs::Scenes::object_taken, crate::proofs::Scenes::same_first))]
pub fn fired<'m, 'a>(
    machine: &Machine<'m>,
    event: &Event<'a>,
    unit: &'m TypedUnit<'a>,
    frame: &Frame,
    depth: u8,
    global: u16,
    object: &Object,
    state: Option<(u8, u16)>,
) -> Option<Fired<'m, 'a>>
    requires { depth ≤ 8 }
    ensures taken { option_map taken_of result ≡ taken (machine_view machine.now) depth (happening_in unit.now event.now) (function_of frame.now) frame.now.is_root global object.now state }
    ensures rule { IfSome result (λ f. IsRuleOf machine.now f.rule.now) }
    ensures first { IfSome result (IsByFirst (scene (machine_view machine.now) depth (happening_in unit.now event.now) (function_of frame.now)) (event_of event.now) (ObjectIn object.now state)) }
{
    if global == STOP || !is_asked(event, frame.is_root, object) {
        return None;
    }
    let setting = Setting::new(machine, unit, frame.name, depth);
    let asked = asked_object(object, state);
    first_rule(&setting, event, global, asked, machine.rules)
}
