//! Counts of steps.

ghost use Rattle.std.specs.Prelude.{◌≡◌, ◌+◌, ◌-◌, ◌^◌, min};

use std::marker::PhantomData;

/// How many steps of the kind that `L` names were made, from 0 on. At the greatest `u64` it stays.
#[derive(Drop)]
pub struct Steps<L> {
    count: u64,
    kind: PhantomData<L>,
}

impl<L> Steps<L> {
    /// None.
    pub fn new() -> Steps<L>
        ensures { result.count ≡ 0 }
    {
        Steps {
            count: 0,
            kind: PhantomData,
        }
    }

    /// One more.
    pub fn tick(&mut self)
        ensures { self.new.count ≡ min (self.old.count + 1) (2 ^ 64 - 1) }
    {
        self.count = self.count.saturating_add(1);
    }

    /// How many.
    pub fn count(&self) -> u64
        ensures { result ≡ self.now.count }
    {
        self.count
    }
}
