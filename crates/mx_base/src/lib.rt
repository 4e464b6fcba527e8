//! The smallest shared types: byte strings, and names that are numbers.
#![tactic(auto)]

mod names;
mod steps;
mod text;

pub use names::Names;
pub use steps::Steps;
pub use text::Text;
