use std::marker::Model;

mod calls;
mod places;
mod sift;

// At most `limit` elements, for which room is reserved. `T` need be neither `Copy` nor `Drop`: elements are only moved, so
// that already the types let none be doubled or lost.
//
// It is no `BinaryHeap`: that one's push may want memory, and its elements are equal where none precedes the other.
//
// That the elements stand in order is no invariant of the heap: it would ask whoever names a `Heap<T>` for a `T` that is
// ranked. Each call says that it keeps the order.
#[derive(Drop)]
pub struct Heap<T> {
    items: Vec<T>,
    limit: usize,
}

// Contracts see what the heap holds, how much it may hold, and how much there is memory for.
impl<T> Model for Heap<T> {
    ghost use Rattle.std.specs.Prelude.{vec_capacity};
    ghost use Rattle.heap.specs.Contents.{Contents, Sound};

    ghost Value = { Contents T };

    ghost view = { λ h. record { items = h.items.items; bound = h.limit; reserved = vec_capacity h.items } };

    ghost invariant = { λ h. Sound h.items.items (vec_capacity h.items) h.limit };
}
