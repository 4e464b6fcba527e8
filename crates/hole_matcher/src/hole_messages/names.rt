//! The texts of names.

ghost use Rattle.std.specs.Prelude.{◌≡◌};
ghost use Rattle.c_objects.specs.Text.{text_of};

use mx_base::Names;

/// The text of a name; no number that names don't have has one.
pub fn name_text(names: &Names, name: u32) -> &[u8]
    ensures { result.now ≡ text_of names.now name }
{
    if name < names.len() {
        names.text_of(name)
    } else {
        &[]
    }
}
