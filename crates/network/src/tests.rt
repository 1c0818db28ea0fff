use crate::{END, Fixed, Hop, LINKS, Network, Poll, Slot, Trace};
use std::process::Abort;

// That the first record of a link arrives just then, and is this one.
fn arrives<N: Network<u32>>(rt: &impl Abort, net: &mut N, link: usize, moment: u64, item: u32) {
    assert!(rt; !net.waiting(link, moment.saturating_sub(1)), "too early");
    assert!(rt; net.waiting(link, moment), "too late");
    assert_eq!(rt; net.take(link, moment), Some(item));
}

#[test]
fn layers_move_arrivals_in_their_order(rt: HostRuntime) {
    let mut slots = [Slot::default(); 32];
    let mut polled = Poll::new(Hop::new(Fixed::new(&mut slots, [5; LINKS]), 4), 8);
    assert_eq!(rt; polled.longest_delay(), 16);
    assert_eq!(rt; polled.send(0, 100, 7), Ok(()));
    arrives(&rt, &mut polled, 0, 112, 7);
    let mut slots = [Slot::default(); 32];
    let mut hopped = Hop::new(Poll::new(Fixed::new(&mut slots, [5; LINKS]), 8), 4);
    assert_eq!(rt; hopped.send(0, 100, 7), Ok(()));
    arrives(&rt, &mut hopped, 0, 116, 7);
}

#[test]
fn a_full_link_hands_back_and_disturbs_no_other(rt: HostRuntime) {
    let mut slots = [Slot::default(); 32];
    let mut net = Fixed::new(&mut slots, [5; LINKS]);
    assert_eq!(rt; net.send(3, 10, 1), Ok(()));
    assert_eq!(rt; net.send(3, 4, 2), Ok(()), "does not overtake");
    assert_eq!(rt; net.send(3, 11, 3), Err(3));
    assert!(rt; !net.room(3));
    assert_eq!(rt; net.send(4, 1, 4), Ok(()));
    arrives(&rt, &mut net, 4, 6, 4);
    arrives(&rt, &mut net, 3, 15, 1);
    assert_eq!(rt; net.send(3, 11, 5), Ok(()), "room again");
    assert_eq!(rt; net.take(3, 15), Some(2));
    arrives(&rt, &mut net, 3, 16, 5);
}

#[test]
fn a_trace_starts_anew(rt: HostRuntime) {
    let mut slots = [Slot::default(); 128];
    let mut net = Trace::new(&mut slots, &[1, 20, 300]);
    assert_eq!(rt; net.longest_delay(), 300);
    for k in 0..7u32 {
        assert_eq!(rt; net.send(9, u64::from(k) * 1000, k), Ok(()));
    }
    assert_eq!(rt; net.send(8, 0, 70), Ok(()), "each link counts its own");
    arrives(&rt, &mut net, 8, 1, 70);
    arrives(&rt, &mut net, 9, 1, 0);
    arrives(&rt, &mut net, 9, 1020, 1);
    arrives(&rt, &mut net, 9, 2300, 2);
    arrives(&rt, &mut net, 9, 3001, 3);
    arrives(&rt, &mut net, 9, 4020, 4);
    arrives(&rt, &mut net, 9, 5300, 5);
    arrives(&rt, &mut net, 9, 6001, 6);
}

#[test]
fn an_empty_trace_delays_nothing(rt: HostRuntime) {
    let mut slots = [Slot::default(); 16];
    let mut net = Trace::new(&mut slots, &[]);
    assert_eq!(rt; net.longest_delay(), 0);
    assert_eq!(rt; net.send(0, 5, 1), Ok(()));
    arrives(&rt, &mut net, 0, 5, 1);
}

// The capacity in so many slots. A send hands its record back just where there is none.
fn capacity_of(rt: &impl Abort, slots: &mut [Slot<u32>]) -> usize {
    let mut net = Fixed::new(slots, [0; LINKS]);
    let capacity = net.capacity();
    assert_eq!(rt; net.send(0, 0, 1).is_ok(), capacity > 0);
    capacity
}

#[test]
fn capacity_is_a_sixteenth_up_to_64(rt: HostRuntime) {
    assert_eq!(rt; capacity_of(&rt, &mut [Slot::default(); 1040]), 64);
    assert_eq!(rt; capacity_of(&rt, &mut [Slot::default(); 1023]), 63);
    assert_eq!(rt; capacity_of(&rt, &mut [Slot::default(); 16]), 1);
    assert_eq!(rt; capacity_of(&rt, &mut [Slot::default(); 15]), 0);
    assert_eq!(rt; capacity_of(&rt, &mut [Slot::default(); 0]), 0);
}

#[test]
fn limits_are_kept(rt: HostRuntime) {
    let mut slots = [Slot::default(); 32];
    let mut net = Poll::new(
        Hop::new(Fixed::new(&mut slots, [u32::MAX; LINKS]), u32::MAX),
        u32::MAX,
    );
    assert_eq!(rt; net.send(LINKS, 0, 1), Err(1));
    assert_eq!(rt; net.send(0, END, 2), Err(2));
    assert_eq!(rt; net.send(15, END - 1, 3), Ok(()));
    assert!(rt;
        !net.waiting(15, END - 1),
        "arrives at the end, which is no moment"
    );
    assert!(rt; !net.waiting(15, END));
    assert!(rt; !net.room(LINKS));
    assert_eq!(rt; net.take(LINKS, 0), None);
    assert_eq!(rt; net.take(15, END), None);
}
