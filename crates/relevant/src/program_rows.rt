//! The rows of a program's functions: what happens in each, and the followed calls from it and into it. Out of them the relevant objects
//! are found.

mod calls;
mod ends;
mod events;
mod filing;
mod functions;
mod listing;
mod rows;
mod tables;

pub use rows::rows_of;
