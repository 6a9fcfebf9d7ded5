//! Where things stand in lists.
ghost use Rattle.std.specs.Prelude.{◌≡◌, position};

/// Where an item stands first.
pub fn place_of<T: PartialEq>(items: &[T], item: &T) -> Option<usize>
    ensures { result ≡ position (T.eq item.now) items.now }
{
    items.iter().position(|other| *item == *other)
}
