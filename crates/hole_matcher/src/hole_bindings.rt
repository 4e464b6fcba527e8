//! What the holes of a checker may take and have taken, and the callouts that ask of it.
#![tactic(auto)]

mod binding;
mod callouts;
mod holes;
mod items;
mod named;
mod setting;
mod settings;
mod slots;

pub use binding::{Binding, Taken};
pub use callouts::holds;
pub use holes::{bind, take, takes_rest};
pub use setting::Setting;
