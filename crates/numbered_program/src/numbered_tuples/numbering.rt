//! The objects that are followed in a function, by number.

ghost use Rattle.std.specs.Prelude.{◌≡◌, ◌↔◌, ◌≤◌, ◌<◌, ◌^◌, ℕ, None, Some, IfSome, length};
ghost use Rattle.std.specs.Option.{option_copied};
ghost use Rattle.least_set.specs.Logs.{IsOnce};
ghost use Rattle.numbered_program.specs.NumberedTuples.FollowedObjects.{number_of};
ghost use Rattle.row_flows.specs.Numbers.{item_numbered};

use crate::numbered_tuples::object_states::ObjectStates;
use indexmap::IndexSet;
use objects::Object;

/// What numbers stand for in a function under a checker.
#[derive(Clone, Copy)]
pub struct Numbering<'t> {
    /// The objects that are followed in the function. The first has the number 1, and 0 is the number of no object.
    pub objects: &'t IndexSet<Object>,
    pub states: &'t ObjectStates,
    ghost few: { length objects.now.keys < 2 ^ 32 },
}

impl<'t> Numbering<'t> {
    /// The numbers of these objects and states; none where a `u32` has no room for the objects' numbers.
    pub fn new(objects: &'t IndexSet<Object>, states: &'t ObjectStates) -> Option<Numbering<'t>>
        ensures objects { IfSome result (λ n. n.objects.now ≡ objects.now) }
        ensures states { IfSome result (λ n. n.states.now ≡ states.now) }
        ensures many { (result ≡ None) ↔ (2 ^ 32 ≤ length objects.now.keys) }
    {
        if objects.len() > u32::MAX as usize {
            return None;
        }
        Some(Numbering { objects, states })
    }

    /// How many objects have a number: the greatest of the numbers.
    pub fn count(&self) -> u32
        ensures { result ≡ length self.now.objects.now.keys }
    {
        self.objects.len() as u32
    }

    /// The object with a number; none where the number is that of no object.
    pub fn object(&self, number: u32) -> Option<&'t Object>
        ensures { option_copied result ≡ item_numbered self.now.objects.now.keys number }
    {
        if number == 0 {
            return None;
        }
        self.objects.get_index(number as usize - 1)
    }

    // No two of them have one number.
    fn are_distinct(&self)
        ensures { IsOnce self.now.objects.now.keys }
    {
        let _count = self.objects.len();
    }

    /// The number of an object; 0 where it isn't followed.
    pub fn number(&self, object: &Object) -> u32
        ensures number { result ≡ number_of self.now.objects.now.keys object.now }
        ensures exact { (n : ℕ) → 0 < n → (result ≡ n) ↔ (item_numbered self.now.objects.now.keys n ≡ Some object.now) }
        ensures within { result ≤ length self.now.objects.now.keys }
    {
        self.are_distinct();
        match self.objects.get_index_of(object) {
            Some(place) => place as u32 + 1,
            None => 0,
        }
    }
}
