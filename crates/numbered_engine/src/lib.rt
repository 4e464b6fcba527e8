//! Tabulation over numbers: the path edges of a program whose functions are tables of rows, and the rules with an action that are taken on them.
#![tactic(auto)]

// the tables of a program, and the log of its edges
mod edge_log;
mod edges;
mod program;

// what follows
mod following;
mod waiting;

// the engine, the contexts that it may pass by, and what its edges show
mod engine;
mod held;
mod showing;

pub use edge_log::EdgeLog;
pub use edges::{NumberedContext, NumberedEdge};
pub use engine::{NumberedEngine, resume, tabulate};
pub use held::HeldContext;
pub use program::{Block, Call, Ending, FunctionRows, ProgramRows};
pub use showing::firings_at;
