ghost use Rattle.std.specs.Prelude.{◌≡◌, length, nat_le};
ghost use Rattle.std.proofs.Common.{rules};

use crate::{Heap, Ranked};
use std::alloc::Global;
use std::process::Abort;
use std::test::Fail;

// A job of some urgency, the lowest number first.
#[derive(Clone, Copy, Debug, PartialEq)]
struct Job {
    urgency: u32,
    name: u32,
}

impl Ranked for Job {
    type Key = u32;

    ghost key = { λ j. j.urgency };

    ghost upto = { nat_le };

    ghost lawful = { Prim.search rules };

    fn key_of(&self) -> u32 {
        self.urgency
    }

    fn precedes(&self, other: &Job) -> bool {
        self.urgency <= other.urgency
    }
}

// What holds a heap, and who counts in it, need not say that its elements are ranked.
#[derive(Drop)]
struct Shelf<T> {
    heap: Heap<T>,
}

impl<T> Shelf<T> {
    fn count(&self) -> usize
        ensures { result ≡ length self.now.heap.items }
    {
        self.heap.len()
    }
}

// A heap of just these jobs, with no room for another. Their names are 1, 2, 4 and so on.
fn full_of(rt: &impl Abort, heap: Global, urgencies: &[u32]) -> Result<Heap<Job>, Fail> {
    let mut jobs = Heap::with_room(heap, urgencies.len())?;
    let mut name = 1u32;
    for urgency in urgencies {
        let urgency = *urgency;
        assert_eq!(rt; jobs.add(Job { urgency, name }), Ok(()));
        name = name.wrapping_mul(2);
    }
    Ok(jobs)
}

#[test]
fn jobs_come_out_by_rank(rt: HostRuntime) -> Result<(), Fail> {
    let mut jobs = full_of(&rt, rt.alloc(), &[5, 1, 4, 6, 2, 3])?;
    for urgency in 1..7u32 {
        let peeked = jobs.peek().copied();
        let taken = jobs.take();
        assert_eq!(rt; peeked, taken);
        assert_eq!(rt; taken.ok_or("too few")?.urgency, urgency);
    }
    assert_eq!(rt; jobs.take(), None);
    Ok(())
}

#[test]
fn equals_all_come_out(rt: HostRuntime) -> Result<(), Fail> {
    let mut jobs = full_of(&rt, rt.alloc(), &[7, 7, 3, 7])?;
    assert_eq!(rt; jobs.take().ok_or("empty")?.name, 4);
    assert_eq!(rt; jobs.len(), 3);
    let mut names = 0u32;
    for _ in 0..3 {
        names ^= jobs.take().ok_or("too few")?.name;
    }
    assert_eq!(rt; names, 1 + 2 + 8, "each once");
    assert_eq!(rt; jobs.take(), None);
    Ok(())
}

#[test]
fn a_full_heap_hands_back(rt: HostRuntime) -> Result<(), Fail> {
    let mut jobs = full_of(&rt, rt.alloc(), &[2, 4])?;
    let job = Job {
        urgency: 1,
        name: 9,
    };
    assert_eq!(rt; jobs.add(job), Err(job));
    assert_eq!(rt; jobs.len(), 2);
    assert_eq!(rt; jobs.take().ok_or("empty")?.urgency, 2);
    assert_eq!(rt; jobs.add(job), Ok(()), "room again");
    assert_eq!(rt; jobs.take(), Some(job));
    Ok(())
}

#[test]
fn an_empty_heap_has_nothing(rt: HostRuntime) -> Result<(), Fail> {
    let mut jobs = full_of(&rt, rt.alloc(), &[])?;
    assert_eq!(rt; jobs.len(), 0);
    assert!(rt; jobs.peek().is_none());
    assert_eq!(rt; jobs.take(), None);
    Ok(())
}

#[test]
fn a_holder_names_no_rank(rt: HostRuntime) -> Result<(), Fail> {
    let heap = full_of(&rt, rt.alloc(), &[2, 4])?;
    let shelf = Shelf { heap };
    assert_eq!(rt; shelf.count(), 2);
    Ok(())
}
