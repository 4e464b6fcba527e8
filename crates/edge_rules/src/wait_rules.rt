//! The rules of two premises: who waits at a call, and where an end of the callee has him go on.

mod at_calls;
mod at_ends;
mod call_ends;
mod followed_calls;
mod waiting_sites;

pub use at_calls::waits;
pub use at_ends::wake;
