//! Tuples of numbers.

ghost use Rattle.std.specs.Prelude.{◌≡◌, ◌↔◌, ◌≤◌, ℕ, None, Some, length};
ghost use Rattle.numbered_program.specs.NumberedTuples.Numbers.{if_numbered};
ghost use Rattle.numbered_program.specs.NumberedTuples.Tuples.{IsNumbered, numbers_with, tuple_at, tuple_of};
ghost use Rattle.row_flows.specs.Numbers.{item_numbered};
ghost use Rattle.row_flows.specs.declared.tuples.NumberedTuple.{NumberedTuple as Numbers};

use crate::numbered_tuples::numbering::Numbering;
use objects::{Object, copy};
use row_flows::NumberedTuple;
use state_tuples::Tuple;

// A number but 0.
fn if_numbered(number: u32) -> Option<u32>
    ensures { result ≡ if_numbered number }
{
    if number == 0 { None } else { Some(number) }
}

// The numbers of a tuple by those of its object and its state, if both have one.
fn numbers_with(global: u16, object: Option<u32>, state: Option<u16>) -> Option<NumberedTuple>
    ensures { result ≡ numbers_with global object state }
{
    match object {
        Some(object) => match state {
            Some(state) => Some(NumberedTuple {
                global,
                state,
                object,
            }),
            None => None,
        },
        None => None,
    }
}

// The tuple of an object.
fn of_object(global: u16, object: &Object, state: Option<(u8, u16)>) -> Tuple
    ensures { result ≡ tuple_of global (Some object.now) state }
{
    Tuple {
        global,
        object: Some(copy(object)),
        state,
    }
}

// The tuple without an object.
fn of_none(global: u16) -> Tuple
    ensures { result ≡ tuple_of global None None }
{
    Tuple {
        global,
        object: None,
        state: None,
    }
}

impl<'t> Numbering<'t> {
    /// The tuple that has these numbers. What numbers don't name it hasn't got.
    pub fn tuple(&self, numbered: NumberedTuple) -> Tuple
        ensures { result ≡ tuple_at self.now.objects.now.keys self.now.states.now.states.keys numbered }
    {
        match self.object(numbered.object) {
            Some(object) => of_object(numbered.global, object, self.states.state(numbered.state)),
            None => of_none(numbered.global),
        }
    }

    // The number of an object, 0 of none; none where it isn't followed.
    fn number_if_any(&self, object: &Option<Object>) -> Option<u32>
        ensures { (n : ℕ) → (result ≡ Some n) ↔ ((n ≤ length self.now.objects.now.keys) × (item_numbered self.now.objects.now.keys n ≡ object.now)) }
    {
        match object {
            Some(object) => if_numbered(self.number(object)),
            None => Some(0),
        }
    }

    /// The numbers of a tuple: exactly those that stand for it. There are none where its object isn't followed, or no rule names its state.
    pub fn numbered(&self, tuple: &Tuple) -> Option<NumberedTuple>
        ensures { (t : Numbers) → (result ≡ Some t) ↔ (IsNumbered self.now.objects.now.keys self.now.states.now.states.keys t × (tuple_at self.now.objects.now.keys self.now.states.now.states.keys t ≡ tuple.now)) }
    {
        let object = self.number_if_any(&tuple.object);
        let state = self.states.number_if_any(tuple.state);
        numbers_with(tuple.global, object, state)
    }
}
