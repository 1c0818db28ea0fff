ghost use Rattle.std.specs.Prelude.{◌≡◌, ℕ, ◌+◌, ◌<◌, ◌≤◌, [], ◌∷◌, ◌++◌, length, IfOk, vec_len, vec_capacity, ◌==◌, ◌≢◌, nat_le, slice_index_or};
ghost use Rattle.std.specs.List.{swap_remove};
ghost use Rattle.std.specs.Slice.{IsGetResult};
ghost use Rattle.heap.specs.Calls.{Adds, Fresh, KeepsOrder, Peeks, Takes};
ghost use Rattle.heap.specs.Heaps.{Upto};

use super::Heap;
use super::places::ROOT;
use super::sift::{sift_down, sift_up};
use crate::ranked::Ranked;
use std::alloc::{AllocError, Global};

impl<T> Heap<T> {
    // How many elements the heap holds. What always holds of a heap is told here too.
    pub fn len(&self) -> usize
        ensures value { result ≡ length self.now.items }
        ensures within { length self.now.items ≤ self.now.bound }
        ensures room { self.now.bound ≤ self.now.reserved }
    {
        self.items.len()
    }

    // Whether there is nothing to take.
    fn is_empty(&self) -> bool
        ensures { result ≡ (length self.now.items == 0) }
    {
        self.items.is_empty()
    }

    // Whether the heap holds as many elements as it may.
    fn is_full(&self) -> bool
        ensures { result ≡ nat_le self.now.bound (length self.now.items) }
    {
        self.limit <= self.len()
    }
}

impl<T: Ranked> Heap<T> {
    // An empty heap with room for `limit` elements.
    pub fn with_room(heap: Global, limit: usize) -> Result<Heap<T>, AllocError>
        ensures { IfOk result (λ h. Fresh (Upto T.key T.upto) limit h) }
    {
        let items = Vec::with_capacity(heap, limit)?;
        Ok(Heap { items, limit })
    }

    // The element that the next `take` hands out.
    pub fn peek(&self) -> Option<&T>
        ensures { Peeks (Upto T.key T.upto) self.now.items result }
    {
        root(self.items.as_slice())
    }

    // Takes an element in, or hands it back where the heap holds as many as it may.
    pub fn add(&mut self, x: T) -> Result<(), T>
        ensures added { Adds self.old x result self.new }
        ensures heaped { KeepsOrder (Upto T.key T.upto) self.old.items self.new.items }
    {
        if self.is_full() {
            return Err(x);
        }
        let at = append(&mut self.items, x);
        sift_up(self.items.as_mut_slice(), at);
        Ok(())
    }

    // Hands out an element that no other precedes, and keeps the others. Among equal keys any may come first.
    pub fn take(&mut self) -> Option<T>
        ensures taken { Takes (Upto T.key T.upto) self.old result self.new }
        ensures heaped { KeepsOrder (Upto T.key T.upto) self.old.items self.new.items }
    {
        if self.is_empty() {
            return None;
        }
        let root = uproot(&mut self.items);
        sift_down(self.items.as_mut_slice(), ROOT);
        Some(root)
    }
}

// The element at the root, if there is one.
fn root<T>(items: &[T]) -> Option<&T>
    ensures { IsGetResult items.now 0 0 result }
{
    items.first()
}

// Puts an element at the end, in room that is reserved, and answers its place.
fn append<T>(items: &mut Vec<T>, x: T) -> usize
    requires { vec_len items.old < vec_capacity items.old }
    ensures place { result ≡ vec_len items.old }
    ensures items { items.new.items ≡ items.old.items ++ x ∷ [] }
    ensures len { vec_len items.new ≡ vec_len items.old + 1 }
    ensures capacity { vec_capacity items.new ≡ vec_capacity items.old }
{
    let at = items.len();
    items.push_reserved(x);
    at
}

// Takes out the element at the root, and puts the last one in its place.
fn uproot<T>(items: &mut Vec<T>) -> T
    requires { 0 < vec_len items.old }
    ensures value { result ≡ slice_index_or items.old.items 0 result }
    ensures items { items.new.items ≡ swap_remove items.old.items 0 result }
    ensures others { (k : ℕ) (d : T) → (k ≢ 0) → k + 1 < vec_len items.old → slice_index_or items.new.items k d ≡ slice_index_or items.old.items k d }
    ensures len { vec_len items.new + 1 ≡ vec_len items.old }
    ensures capacity { vec_capacity items.new ≡ vec_capacity items.old }
{
    items.swap_remove(ROOT)
}
