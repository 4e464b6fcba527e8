//! Texts out of pieces, and blanks beside a text that is shorter than its places.

ghost use Rattle.std.specs.Prelude.{◌≡◌, ◌++◌, ◌-◌, ◌≤◌, flat_map, length, replicate, OnOk, OnErr};
ghost use Rattle.report_model.specs.OfReporters.Beginnings.{HasBegun};

use mx_base::Text;
use std::alloc::AllocError;

// As many blanks as the widest column has places.
const BLANKS: &[u8] = b"                    ";

// Appends texts, one behind the other.
pub(crate) fn append_all(texts: &[&[u8]], into: &mut Text) -> Result<(), AllocError>
    ensures ok { OnOk result (into.new ≡ into.old ++ flat_map (λ t. t.now) texts.now) }
    ensures err { OnErr result (HasBegun into.old (flat_map (λ t. t.now) texts.now) into.new) }
{
    for piece in texts {
        into.push_all(piece)?;
    }
    Ok(())
}

// The blanks that fill what a text leaves of its places.
pub(crate) fn blanks(places: usize, text: &[u8]) -> &'static [u8]
    requires { places ≤ 20 }
    ensures { result.now ≡ replicate (places - length text.now) 32 }
{
    &BLANKS[..places.saturating_sub(text.len())]
}
