ghost use Rattle.std.specs.Prelude.{◌≡◌, Bool};
ghost use Rattle.heap.specs.Order.{Order};

// An element that is ranked by its key.
pub trait Ranked: Sized {
    type Key;

    // The key of an element.
    ghost key: { Self → Self.Key };

    // Whether a key comes before another, or is the same.
    ghost upto: { Self.Key → Self.Key → Bool };

    fn key_of(&self) -> Self::Key
        ensures { result ≡ key self.now };

    // Whether this element comes before the other, or has the same key.
    fn precedes(&self, other: &Self) -> bool
        ensures { result ≡ upto (key self.now) (key other.now) };

    // Every implementation owes the laws of a total order.
    ghost lawful: { Order upto };
}
