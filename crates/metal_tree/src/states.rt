//! The states of objects.

/// The states of a variable.
#[derive(Clone, Copy)]
pub struct States<'a> {
    /// Their names, from number 0 on.
    pub names: &'a [u32],
}
