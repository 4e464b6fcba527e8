//! The tables of a program.

ghost use Rattle.std.specs.Prelude.{◌≡◌, option_copied};
ghost use Rattle.numbered_engine.specs.Program.{block_at, block_of, call_at, call_in, function_at};

use crate::edges::NumberedEdge;
use row_flows::{BlockRows, Touched};

/// A call that is followed.
#[derive(Drop)]
pub struct Call {
    /// The number of the function that is called.
    pub callee: u32,
    /// The block behind the call.
    pub behind: u32,
    /// With which states the callee's objects begin: each with the caller's object whose state it has there; 0 where it begins unknown.
    pub entered: Vec<Touched>,
    /// What is handed back: each of the caller's objects that has its state from the callee, with the callee's object whose state it has.
    pub handed: Vec<Touched>,
    /// For each object of the caller in turn whether it is saved over the call.
    pub saved: Vec<bool>,
}

/// How a block ends.
#[derive(Drop)]
pub enum Ending {
    /// It leads to any of these blocks.
    Next(Vec<u32>),
    /// It ends in a call.
    Calls(Call),
    /// The function ends.
    Exit,
}

/// A block of a function.
#[derive(Drop)]
pub struct Block {
    pub rows: BlockRows,
    pub ending: Ending,
}

/// A function. Its first block has the number 0.
#[derive(Drop)]
pub struct FunctionRows {
    pub blocks: Vec<Block>,
    /// For each object that is followed in turn whether it is the function's own.
    pub own: Vec<bool>,
    pub is_root: bool,
}

/// The functions of a program, by their numbers, and the edges with which paths begin.
#[derive(Drop)]
pub struct ProgramRows {
    pub functions: Vec<FunctionRows>,
    pub begun: Vec<NumberedEdge>,
}

/// The function with a number.
pub(crate) fn function_at(program: &ProgramRows, function: u32) -> Option<&FunctionRows>
    ensures { option_copied result ≡ function_at program.now function }
{
    program.functions.get(function as usize)
}

/// The block of a function with a number.
pub(crate) fn block_of(function: &FunctionRows, block: u32) -> Option<&Block>
    ensures { option_copied result ≡ block_of function.now block }
{
    function.blocks.get(block as usize)
}

// The call in which a block ends.
fn call_in(ending: &Ending) -> Option<&Call>
    ensures { option_copied result ≡ call_in ending.now }
{
    match ending {
        Ending::Next(_) => None,
        Ending::Calls(call) => Some(call),
        Ending::Exit => None,
    }
}

/// The block with a number of the function with a number.
pub(crate) fn block_at(program: &ProgramRows, function: u32, block: u32) -> Option<&Block>
    ensures { option_copied result ≡ block_at program.now function block }
{
    block_of(function_at(program, function)?, block)
}

/// The call in which the block with a number ends.
pub(crate) fn call_at(program: &ProgramRows, function: u32, block: u32) -> Option<&Call>
    ensures { option_copied result ≡ call_at program.now function block }
{
    call_in(&block_at(program, function, block)?.ending)
}
