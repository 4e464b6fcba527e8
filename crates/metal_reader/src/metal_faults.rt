//! Why texts are no checkers, and the first fault that a text has whose clauses were read.

mod fault;
mod first_fault;

pub use fault::MetalFault;
pub use first_fault::{check_declarations, check_rules};
