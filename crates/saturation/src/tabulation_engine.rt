//! The exact engine: the path edges of a program under a checker, by the rules of tabulation, one edge after the other, and the reports that they
//! show.

mod caching_engine;
mod engine;
mod least_log;
mod tabulation;

pub use engine::Engine;
pub(crate) use least_log::least_edges;
pub use least_log::reported;
