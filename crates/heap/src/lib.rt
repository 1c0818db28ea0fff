// A heap of a fixed room, for every kind of element that names its key and an order on keys.
//
// Adding never allocates, and at its bound the heap hands the element back. Taking hands out an element that no other
// precedes.

#![tactic(auto)]

mod heap;
mod ranked;
#[cfg(test)]
mod tests;

pub use heap::Heap;
pub use ranked::Ranked;
