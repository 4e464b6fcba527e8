//! Makes the machines of texts that have no fault.

mod building;
mod machines;

pub use building::Builder;
pub use machines::{builder_of, made_of};
