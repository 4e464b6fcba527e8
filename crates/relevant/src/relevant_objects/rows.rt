//! Functions, as far as their objects take states from others.

use flow_graph::Event;
use refine_restore::Site;
use typed_unit::TypedUnit;

/// A call that is followed.
#[derive(Clone, Copy)]
pub struct FollowedCall<'s, 'a> {
    /// The number of the function in which it stands.
    pub caller: u32,
    /// The number of the function into which it leads.
    pub callee: u32,
    /// What it passes.
    pub site: Site<'s, 'a>,
}

/// What happens in a function, and the followed calls from it and those into it.
#[derive(Drop)]
pub struct FunctionRow<'s, 'a> {
    /// The unit in which it stands.
    pub unit: &'s TypedUnit<'a>,
    /// Its events, in the blocks that control reaches.
    pub events: Vec<Event<'a>>,
    /// Calls at the ends of such blocks, of this function and of those that call it.
    pub calls: Vec<FollowedCall<'s, 'a>>,
}
