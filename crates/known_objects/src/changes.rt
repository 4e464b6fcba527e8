//! What happens to states in a program: events that move them, and followed calls.

use flow_graph::Event;
use relevant::FollowedCall;
use typed_unit::TypedUnit;

/// An event that writes over something, in the function with a number, and the unit in which it stands.
#[derive(Clone, Copy)]
pub struct Move<'s, 'a> {
    pub function: u32,
    pub event: Event<'a>,
    pub unit: &'s TypedUnit<'a>,
}

/// A followed call with its number.
#[derive(Clone, Copy)]
pub struct Numbered<'s, 'a> {
    pub number: usize,
    pub call: FollowedCall<'s, 'a>,
}
