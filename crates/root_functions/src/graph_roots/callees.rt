//! What a function leads to.

/// The functions that one function leads to, by their numbers. A number may stand there twice.
#[derive(Drop)]
pub struct Callees {
    pub numbers: Vec<u32>,
}
