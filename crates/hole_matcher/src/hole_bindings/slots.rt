//! The slots of a binding.

ghost use Rattle.std.specs.Prelude.{◌≡◌};
ghost use Rattle.std.specs.Option.{option_map};
ghost use Rattle.hole_matcher.specs.HoleBindings.Bindings.{taken_of, binding_of};
ghost use Rattle.hole_matching.specs.Matched.{nothing_taken, put};
ghost use Rattle.hole_matching.specs.Matching.{slot};

use crate::hole_bindings::binding::{Binding, Taken};
use crate::hole_bindings::items::item_at;
use arrayvec::ArrayVec;

impl<'a> Binding<'a> {
    /// No hole has taken anything.
    #[tactic(auto, using(crate::proofs::HoleBindings::SlotItems::one_more_empty, crate::proofs::HoleBindings::SlotItems::empty_slots))]
    pub fn new() -> Self
        ensures { binding_of result ≡ nothing_taken }
    {
        let mut slots = ArrayVec::new();
        for _number in 0..16usize {
            slots.push(None);
        }
        Binding { slots }
    }

    /// What the hole with a number has taken, if anything.
    pub fn slot(&self, hole: u8) -> Option<Taken<'a>>
        ensures { option_map taken_of result ≡ slot hole (binding_of self.now) }
    {
        match item_at(self.slots.as_slice(), hole as usize) {
            Some(found) => found,
            None => None,
        }
    }

    /// Fills the slot of a hole.
    #[tactic(auto, using(crate::proofs::HoleBindings::SlotItems::put_items, crate::proofs::HoleBindings::SlotItems::put_past))]
    pub fn put(&mut self, hole: u8, taken: Taken<'a>)
        ensures { binding_of self.new ≡ put hole (taken_of taken.entry) (binding_of self.old) }
    {
        if let Some(place) = self.slots.get_mut(hole as usize) {
            *place = Some(taken);
        }
    }
}
