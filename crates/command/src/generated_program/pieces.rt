//! Texts out of pieces.

ghost use Rattle.std.specs.Prelude.{◌≡◌, ◌++◌, flat_map, OnOk, OnErr};
ghost use Rattle.report_model.specs.OfReporters.Beginnings.{HasBegun};

use mx_base::Text;
use std::alloc::AllocError;

/// Appends texts, one behind the other. An error leaves a beginning of them appended.
pub(crate) fn append_all(texts: &[&[u8]], into: &mut Text) -> Result<(), AllocError>
    ensures ok { OnOk result (into.new ≡ into.old ++ flat_map (λ t. t.now) texts.now) }
    ensures err { OnErr result (HasBegun into.old (flat_map (λ t. t.now) texts.now) into.new) }
{
    for piece in texts {
        into.push_all(piece)?;
    }
    Ok(())
}
