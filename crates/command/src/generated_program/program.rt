//! The text of a generated program.

ghost use Rattle.std.specs.Prelude.{◌≡◌, ◌++◌, ◌+◌, ◌<◌, ◌≤◌, ◌^◌, OnOk, OnErr};
ghost use Rattle.command.specs.GeneratedProgram.Generated.{ends_chain, freeing_line, generated, handing_line, line_of};
ghost use Rattle.report_model.specs.OfReporters.Beginnings.{HasBegun};

use crate::generated_program::pieces::append_all;
use itoa::Buffer;
use mx_base::Text;
use std::alloc::AllocError;

/// Whether a chain ends with the function of this number, of so many.
fn ends_chain(count: u32, number: u32) -> bool
    requires { number < 2 ^ 31 }
    ensures { result ≡ ends_chain count number }
{
    number % 8 == 7 || number + 1 == count
}

/// Appends a function that frees what its parameter points to.
fn write_freeing(number: u32, into: &mut Text) -> Result<(), AllocError>
    ensures ok { OnOk result (into.new ≡ into.old ++ freeing_line number) }
    ensures err { OnErr result (HasBegun into.old (freeing_line number) into.new) }
{
    let mut digits = Buffer::new();
    let pieces: [&[u8]; 3] = [
        b"void f",
        digits.format(number).as_bytes(),
        b"(char *p){ kfree(p); }\n",
    ];
    append_all(&pieces, into)
}

/// Appends a function that hands its parameter to the next one, and then uses it.
fn write_handing(number: u32, into: &mut Text) -> Result<(), AllocError>
    requires { number < 2 ^ 31 }
    ensures ok { OnOk result (into.new ≡ into.old ++ handing_line number) }
    ensures err { OnErr result (HasBegun into.old (handing_line number) into.new) }
{
    let mut digits = Buffer::new();
    let mut next = Buffer::new();
    let pieces: [&[u8]; 5] = [
        b"void f",
        digits.format(number).as_bytes(),
        b"(char *p){ f",
        next.format(number + 1).as_bytes(),
        b"(p); *p; }\n",
    ];
    append_all(&pieces, into)
}

/// Appends the line of the function with this number, of so many.
fn write_line(count: u32, number: u32, into: &mut Text) -> Result<(), AllocError>
    requires { number < 2 ^ 31 }
    ensures ok { OnOk result (into.new ≡ into.old ++ line_of count number) }
    ensures err { OnErr result (HasBegun into.old (line_of count number) into.new) }
{
    if ends_chain(count, number) {
        write_freeing(number, into)
    } else {
        write_handing(number, into)
    }
}

/// Appends the program of a number from 1 to 9999. An error leaves a beginning of it appended.
pub fn write_program(count: u32, into: &mut Text) -> Result<(), AllocError>
    requires least { 1 ≤ count }
    requires most { count ≤ 9999 }
    ensures ok { OnOk result (into.new ≡ into.old ++ generated count) }
    ensures err { OnErr result (HasBegun into.old (generated count) into.new) }
{
    for number in 0..count {
        write_line(count, number, into)?;
    }
    into.push_all(b"void c0(char *p){ kfree(p); c1(p); }\nvoid c1(char *q){ kfree(q); c0(q); }\n")
}
