//! The least set under rules, each member once, in the order in which they were found.
//!
//! Rules say what is there from the beginning (the base), and what follows.
//!
//! - By a rule of *one premise* a member follows from a member: what a node of a graph leads to, say. `closure` takes these
//!   alone (`Steps`).
//! - By a rule of *two premises* a member follows from two: where a function calls another one and that one ends, the
//!   caller goes on. `least` takes both kinds (`Rules`).
//!
//! A rule of two premises is split at a *context*, the place where its premises meet. The first premise leaves a *waiter* at
//! the context, and the second is an *end* of that context; `wake` says what a waiter and an end give together. So the
//! driver asks the rules once for what a member gives by itself (`enter`), and after that once for each waiter and each end
//! of its context. A waiter holds all that is needed to go on, so nothing is looked up in the member that left it.
//!
//! The set is a *log*: members are put last as they are found, and are worked off from the front, each once. Two indexes
//! by context, of waiters and of ends, take the place of a search through the log. Of a waiter and an end the one that is
//! worked off later meets the other in the index; a member that is both meets itself, since its waiters go in before it is
//! answered as an end. The work is that of the rules, for each member and for each waiter and end that meet.
//!
//! This is the worklist of tabulation (Reps, Horwitz, Sagiv: Precise interprocedural dataflow analysis via graph
//! reachability, POPL 1995), apart from its program: path edges are members, and an edge into a callee is a context.
//!
//! Rules that keep what they have computed (a cache of summaries, say) are `CachingRules`, and `least_caching` takes them by
//! `&mut`: what they are of, their `source`, stays as it is, and what follows is said of that.
//!
//! The log is an `IndexSet`, or whatever else keeps members in order, each once (`Log`): `least_in` is given one.
//!
//! An instance is proved by saying which members are exactly those that its functions return; `proofs/Enumerating.antt` has
//! the steps of a loop that makes such a list. Members and contexts are of types at which `==` says that two values are one
//! (`Key`). They need not be `Copy`, and the driver copies none.
#![tactic(auto)]

// keys, and members by key
mod indexes;
mod keys;
mod logs;

// the least set, and small instances
mod driver;
mod one_premise;
mod two_premises;

pub use driver::{least_caching, least_in};
pub use keys::Key;
pub use logs::{Found, Log};
pub use one_premise::{Steps, closure};
pub use two_premises::{CachingRules, Entered, Rules, Wait, least};
