//! Lists of reports in the order in which they are printed.

mod lists;

pub use lists::sorted;
