ghost use Rattle.std.specs.Prelude.{◌≡◌, ◌+◌, ◌*◌, ◌<◌, ◌≤◌, MatchOption};
ghost use Rattle.heap.specs.Heaps.{Child};

// The place of the first element.
pub const ROOT: usize = 0;

// The place above this one; the root has none.
pub fn parent(at: usize) -> Option<usize>
    ensures { MatchOption result (at ≡ 0) (λ p. Child p at) }
{
    if at == ROOT { None } else { Some((at - 1) / 2) }
}

// The first place below this one, among so many; a leaf has none.
pub fn left_child(at: usize, len: usize) -> Option<usize>
    ensures { MatchOption result (len ≤ at * 2 + 1) (λ c. (c ≡ at * 2 + 1) × (c < len)) }
{
    if at < len / 2 { Some(at * 2 + 1) } else { None }
}
