ghost use Rattle.std.specs.Prelude.{◌≡◌, ◌+◌, ◌*◌, ◌<◌, ◌≤◌, length, if◌then◌else◌, MatchOption, slice_index_or};
ghost use Rattle.std.specs.List.Sorted.{IsPermutation};
ghost use Rattle.heap.specs.Heaps.{Child, Gap, Heaped, Over, Under, Upto};

use super::places::{left_child, parent};
use crate::ranked::Ranked;

// Moves the element at `at` up past the parents that it precedes.
pub fn sift_up<T: Ranked>(s: &mut [T], mut at: usize)
    requires { at < length s.old }
    ensures shuffled { IsPermutation s.old s.new }
    ensures heaped { Gap (Upto T.key T.upto) s.old at × Under (Upto T.key T.upto) s.old at at → Heaped (Upto T.key T.upto) s.new }
{
    while let Some(up) = parent(at) {
        if upto_at(s, up, at) {
            return;
        }
        s.swap(up, at);
        at = up;
    }
}

// Moves the element at `at` down past the children that precede it.
pub fn sift_down<T: Ranked>(s: &mut [T], mut at: usize)
    ensures shuffled { IsPermutation s.old s.new }
    ensures heaped { Gap (Upto T.key T.upto) s.old at × Over (Upto T.key T.upto) s.old at → Heaped (Upto T.key T.upto) s.new }
{
    while let Some(child) = first_child(s, at) {
        if upto_at(s, at, child) {
            return;
        }
        s.swap(at, child);
        at = child;
    }
}

// The child of `at` that comes no later than the other; a leaf has none.
fn first_child<T: Ranked>(s: &[T], at: usize) -> Option<usize>
    ensures { MatchOption result (length s.now ≤ at * 2 + 1) (λ c. Child at c × (c < length s.now) × Under (Upto T.key T.upto) s.now c at) }
{
    let left = left_child(at, s.len())?;
    if left + 1 == s.len() {
        return Some(left);
    }
    Some(earlier(s, left))
}

// Of a place and the next, the one whose element comes no later than the other's.
fn earlier<T: Ranked>(s: &[T], i: usize) -> usize
    requires { i + 1 < length s.now }
    ensures place { (i ≤ result) × (result ≤ i + 1) }
    ensures value { (d : T) → result ≡ (if T.upto (T.key (slice_index_or s.now i d)) (T.key (slice_index_or s.now (i + 1) d)) then i else i + 1) }
{
    if upto_at(s, i, i + 1) { i } else { i + 1 }
}

// Whether the key of the element at i comes before that of the one at j, or is the same.
fn upto_at<T: Ranked>(s: &[T], i: usize, j: usize) -> bool
    requires { (i < length s.now) × (j < length s.now) }
    ensures { (d : T) → T.upto (T.key (slice_index_or s.now i d)) (T.key (slice_index_or s.now j d)) ≡ result }
{
    s[i].precedes(&s[j])
}
