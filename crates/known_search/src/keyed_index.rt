//! What concerns a thing, found by keys: changes are filed by the key under which each stands, and a thing has the few keys under which all
//! that can concern it stand. So the changes that are asked are those few, and never all of them.

mod asking;
mod filing;
mod lists;

pub use asking::given;
pub use filing::{Filed, Filing, file};
