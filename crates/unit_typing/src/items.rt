//! Items of slices.

ghost use Rattle.std.specs.Prelude.{◌≡◌, slice_get};

/// The item at a position, if there is one.
pub(crate) fn item_at<T: Copy>(items: &[T], position: usize) -> Option<T>
    ensures { result ≡ slice_get items.now position }
{
    items.get(position).copied()
}
