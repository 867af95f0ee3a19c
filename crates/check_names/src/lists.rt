ghost use Rattle.std.specs.Prelude.{◌≡◌, slice_get};

/// What stands at a place of a list.
pub(crate) fn item_at<T: Copy>(items: &[T], place: usize) -> Option<T>
    ensures { result ≡ slice_get items.now place }
{
    items.get(place).copied()
}
