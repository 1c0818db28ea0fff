ghost use Rattle.std.specs.Prelude.{◌≡◌};
ghost use Rattle.records.specs.Tag.{above, is_top, tag_below};

// A seat's delivery clock: the last batch delivered to it, or 0, and the time since by its stop-clock. Tags compare by
// batch, then by elapsed. By the rules 0 stands for no batch, which puts such a tag below all others.
#[derive(Clone, Copy, Debug, Default, PartialEq, Eq, PartialOrd, Ord)]
pub struct Tag {
    pub batch: u32,
    pub elapsed: u64,
}

impl Tag {
    // Whether this tag is lower than the other: by batch, then by elapsed.
    pub fn below(&self, other: &Tag) -> bool
        ensures { result ≡ tag_below self.now other.now }
    {
        self < other
    }
}

// How far the messages of a seat have been collected. `Top` is above every tag, where the `None` of an `Option` would be below.
#[derive(Clone, Copy, Debug, PartialEq, Eq, PartialOrd, Ord)]
pub enum Watermark {
    At(Tag),
    Top,
}

impl Watermark {
    // Whether no trade with this tag, or a lower one, is to come.
    pub fn above(&self, tag: &Tag) -> bool
        ensures { result ≡ above self.now tag.now }
    {
        *self > Watermark::At(*tag)
    }

    // Whether nothing at all is to come.
    pub fn is_top(&self) -> bool
        ensures { result ≡ is_top self.now }
    {
        *self == Watermark::Top
    }
}
