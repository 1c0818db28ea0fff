use book::Book;

// What calls are made over: a network in each direction, the seats' stop-clock, and the book that takes the orders. Each is
// lent for a time of its own. Every call over a venue promises that the same is lent afterwards, as it does of a `Lines`.
//
// The three lists are no part of it. It was tried: a `&mut` to a `Lines`, which holds one itself, gets no proof in a struct
// that is lent on; and a struct that owns the lists would ask callers for more.
#[derive(Drop)]
pub struct Venue<'f, 'r, 'c, 'b, F, R, C> {
    pub forward: &'f mut F,
    pub reverse: &'r mut R,
    pub clock: &'c mut C,
    pub book: &'b mut Book,
}
