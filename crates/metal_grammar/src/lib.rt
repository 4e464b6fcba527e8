//! What a checker is: which lists of symbols are texts of state machines, which machine such a text is, and the first fault of
//! every other one; and a plain reader over lists of symbols that gives exactly that.
#![tactic(auto)]

mod theorems;

pub use theorems::{
    first_faults_are_read, first_faults_are_unique, machine_or_fault, machines_are_kept,
    machines_are_limited, machines_are_read, machines_are_unique, never_both,
    syntax_faults_are_read, texts_are_kept, texts_are_known, texts_are_read,
    texts_are_their_tokens, texts_are_unique,
};
