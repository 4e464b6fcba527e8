//! What each rule of a checker is asked: what it names, its states, its callouts.

mod named;
mod rule_faults;

pub use rule_faults::{
    is_bad_source, is_bad_split, is_stop, lacks_variable, names_two_variables, unknown_callout,
};
