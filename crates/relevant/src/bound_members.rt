//! The objects that a checker's rules bind in the functions of a program.

mod blocks;
mod events;
mod functions;
mod items;

pub use functions::bound;
