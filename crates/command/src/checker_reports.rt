//! The reports of all checkers of a request over a program, in the order in which they are printed, and how many entries their logs have.

mod entries;
mod found;
mod reports;

pub use found::{Found, all_found};
