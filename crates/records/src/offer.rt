use book::Side;

// What a member asks for: the point that it answers, and its order. Any numbers; `submit` refuses those out of range.
#[derive(Clone, Copy, Debug, PartialEq, Eq)]
pub struct Offer {
    pub trigger: u64,
    pub side: Side,
    pub price: u64,
    pub quantity: u64,
}
