ghost use Rattle.std.specs.Prelude.{◌≡◌};
ghost use Rattle.records.specs.Message.{kind_of, stamp};

use crate::tag::{Tag, Watermark};
use crate::trade::Trade;

// What a seat sends to the exchange.
#[derive(Clone, Copy, Debug, Default, PartialEq, Eq)]
pub enum Message {
    Trade(Trade),
    Beat(Tag),
    #[default]
    End,
}

// What `collect` answers of the message that it took.
#[derive(Clone, Copy, Debug, PartialEq, Eq)]
pub enum Kind {
    Trade,
    Beat,
    End,
}

impl Message {
    // What `collect` answers of it. A `From` would say less: `message.kind()` names what it gives.
    pub fn kind(&self) -> Kind
        ensures { result ≡ kind_of self.now }
    {
        match *self {
            Message::Trade(_) => Kind::Trade,
            Message::Beat(_) => Kind::Beat,
            Message::End => Kind::End,
        }
    }

    // The watermark that the message leaves: nothing of this seat with a lower tag is to come.
    pub fn watermark(&self) -> Watermark
        ensures { result ≡ stamp self.now }
    {
        match *self {
            Message::Trade(trade) => Watermark::At(trade.tag),
            Message::Beat(tag) => Watermark::At(tag),
            Message::End => Watermark::Top,
        }
    }
}
