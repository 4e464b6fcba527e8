//! The reports of rules that are taken. Which rules are taken, and the order of reports, stand elsewhere.

mod checker;
mod places;
mod reports;
mod texts;

pub use checker::Checker;
pub use reports::report_of;
