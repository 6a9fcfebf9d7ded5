//! What is asked of the items of a list.
ghost use Rattle.std.specs.Prelude.{◌≡◌, Bool};

/// A question that is answered of each item. A closure has no meaning of its own in contracts; a value of this trait
/// has one.
pub trait Wanted<T> {
    // The item is wanted.
    ghost wants: { Self → T → Bool };

    fn wants(&self, item: &T) -> bool
        ensures { result ≡ wants self.now item.now };
}
