//! Refine and restore: which states a callee begins with, and which its caller has behind the call, one object at a time, from either end.
#![tactic(auto)]

// calls and entries of callees
mod entries;
mod site;

// returns and objects handed over
mod handed_objects;
mod returns;

pub use entries::into_callee;
pub use handed_objects::{entered_by, handed_to};
pub use returns::{is_saved, out_of_callee};
pub use site::Site;
