//! Variables: what a name stands for, if it stands for a variable.

/// A variable by its linkage and storage (ISO 9899:1990, 6.1.2.2, 6.1.2.4). The token of a declared variable is that of its name in
/// its file. The first three have static storage, and what a return leaves behind counts as if it had. No name stands for the last
/// two.
#[derive(Clone, Copy, PartialEq, Eq)]
pub enum Var {
    /// One over all files, by its name.
    Extern { name: u32 },
    /// One in its file.
    FileStatic { file: u16, name: u32 },
    /// A `static` in a block, one a declaration.
    LocalStatic { file: u16, token: u32, name: u32 },
    /// A function's parameter.
    Param { file: u16, token: u32, name: u32 },
    /// A variable of a block.
    Local { file: u16, token: u32, name: u32 },
    /// What a return leaves behind.
    Result,
    /// What a call leaves behind: the token is that of its opening parenthesis, the name its callee's.
    Called { file: u16, token: u32, name: u32 },
}
