//! Calls seen from the other end: the objects that take the state of an object at the entry of a callee, and behind the call.

mod ends;
mod handed;
mod takers;

pub use handed::{entered_by, handed_to};
