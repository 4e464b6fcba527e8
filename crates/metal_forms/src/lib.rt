//! Whether clauses that were read are of the language, beside its grammar: words, types, and where holes stand.
#![tactic(auto)]

// words and types
mod plain_types;
mod spellings;
mod types;

// holes and where they stand
mod before;
mod placing;

// the whole clause
mod well_formed;

pub use before::Before;
pub use well_formed::is_content;
