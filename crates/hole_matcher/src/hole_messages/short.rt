//! Texts of at most 200 bytes.

ghost use Rattle.std.specs.Prelude.{◌≡◌, ◌≤◌, ◌++◌, OnOk, OnErr, length, take};
ghost use Rattle.hole_matching.specs.Message.{shortened};
ghost use Rattle.objects.specs.Pieces.{HasBegun};

use mx_base::Text;
use std::alloc::AllocError;

// The first 200 bytes.
fn first_bytes(bytes: &[u8]) -> &[u8]
    requires { 200 ≤ length bytes.now }
    ensures { result.now ≡ take 200 bytes.now }
{
    &bytes[..200]
}

/// Appends a text; one of more than 200 bytes as its first 200 bytes and `...`. An error leaves a beginning of it appended.
pub(crate) fn write_short(bytes: &[u8], into: &mut Text) -> Result<(), AllocError>
    ensures ok { OnOk result (into.new ≡ into.old ++ shortened bytes.now) }
    ensures err { OnErr result (HasBegun into.old (shortened bytes.now) into.new) }
{
    if bytes.len() <= 200 {
        return into.push_all(bytes);
    }
    into.push_all(first_bytes(bytes))?;
    into.push_all(b"...")
}
