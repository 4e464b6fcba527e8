//! Events that change no tuple. Most of a block are such.

ghost use Rattle.std.specs.Prelude.{◌≡◌, Bool, true, List};
ghost use Rattle.state_tuples.specs.AppliedRules.Events.{AreOfEvent};
ghost use Rattle.state_tuples.specs.declared.tuple.Tuple.{Tuple as Standing};
ghost use Rattle.block_flows.specs.IdleEvents.{is_idle, is_within, leaves_all, AreFollowed, AreLeft};
ghost use Rattle.c_objects.specs.Objects.{Object as Form};
ghost use Rattle.path_model.specs.CheckerModel.Happenings.{Function, Happening};
ghost use Rattle.path_model.specs.CheckerModel.Reports.{Checker};
ghost use Rattle.block_flows.specs.TupleFlows.Moved.{AreObjects};

use crate::tuple_flows::is_followed;
use indexmap::IndexSet;
use objects::Object;
use state_tuples::{EventRules, Tuple};
use synonyms_kills::is_move;

// Whether no alternative of a rule applies at an event, and it writes over nothing. The first is the cheap test.
fn is_idle(rules: &EventRules) -> bool
    ensures { result ≡ is_idle rules.now }
{
    let setting = &rules.setting;
    rules.applied.as_slice().is_empty() && !is_move(&rules.event, setting.unit, setting.depth)
}

/// Whether a tuple has no object, or one that is followed. One of another object flows to nothing.
pub(crate) fn is_within(tuple: &Tuple, followed: &IndexSet<Object>) -> bool
    ensures { result ≡ is_within followed.now.keys tuple.now }
{
    match &tuple.object {
        Some(object) => is_followed(followed, object),
        None => true,
    }
}

/// Whether an event leaves tuples as they are, since no rule applies at it and it writes over nothing, where their objects are followed:
/// behind it stand exactly these, and no rule with an action is taken there, in a root's own frame or in a called one. It takes no memory,
/// and where a rule applies constant time.
pub(crate) fn leaves_all(rules: &EventRules, within: bool) -> bool
    ensures test { result ≡ leaves_all rules.now within }
    ensures kept { result ≡ true → (c : Checker) (h : Happening) (f : Function) (is_root : Bool) (followed : List Form) (tuples : List Standing) → AreOfEvent c.machine c.depth h f rules.now → AreObjects c.depth followed → (within ≡ true → AreFollowed followed tuples) → AreLeft c h f is_root followed tuples }
{
    is_idle(rules) && within
}
