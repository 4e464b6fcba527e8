//! What flows where some objects alone are followed, said with two tests: whether an object is followed in the caller, and in the callee.

mod theorems;

pub use theorems::{strict_flows_ask_lists, strict_origins};
