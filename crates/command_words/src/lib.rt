//! The words of the command and the request that they stand for.
#![tactic(auto)]

// words and what they ask
mod asked;
mod words;

// reading of the words
mod generation;
mod given;
mod reading;

pub use asked::Asked;
pub use generation::read_generation;
pub use reading::read_asked;
pub use words::is_checker;
