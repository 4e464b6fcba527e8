//! Says what the front end makes of rows: each line of the input is a question about a text of C, and is written with its answer.
#![tactic(auto)]

// texts and words
mod texts;
mod words;

// tokens
mod lexed;
mod signs;
mod tokens;

// events and traces of bodies
mod bodies;
mod events;
mod facts;
mod walks;

// phrases and typed trees
mod alike;
mod expressions;
mod found;
mod phrases;
mod typed;

// questions of rows
mod questions;

use crate::questions::answer;
use std::alloc::{AllocError, Global};
use std::io;

/// A row with its answer.
fn answered(alloc: Global, row: &str) -> Result<String, AllocError> {
    match answer(alloc, row) {
        Ok(said) => format!(in alloc; "{row} => {said}"),
        Err(_) => format!(in alloc; "{row} => no tokens"),
    }
}

fn main(rt: HostRuntime) -> io::Result<()> {
    for row in rt.lines(rt.alloc()) {
        rt.println(answered(rt.alloc(), row?.as_str())?)?;
    }
    Ok(())
}
