//! Items by number.

ghost use Rattle.std.specs.Prelude.{◌≡◌, slice_get};
ghost use Rattle.std.specs.Option.{option_copied};

/// The item with a number, if there is one.
pub(crate) fn item<T>(items: &[T], number: u32) -> Option<&T>
    ensures { option_copied result ≡ slice_get items.now number }
{
    items.get(number as usize)
}
