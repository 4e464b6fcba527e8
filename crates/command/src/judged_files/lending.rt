//! Units that are lent one by one.

ghost use Rattle.std.specs.Prelude.{◌≡◌, map, IfOk};

use std::alloc::{AllocError, Global};
use typed_unit::TypedUnit;

/// References to units, in order.
pub(crate) fn lent_units<'u, 'a>(
    alloc: Global,
    units: &'u [TypedUnit<'a>],
) -> Result<Vec<&'u TypedUnit<'a>>, AllocError>
    ensures { IfOk result (λ lent. map (λ u. u.now) lent.items ≡ units.now) }
{
    let mut lent = Vec::new(alloc);
    for unit in units {
        lent.push(unit)?;
    }
    Ok(lent)
}
