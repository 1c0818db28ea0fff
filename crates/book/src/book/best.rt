ghost use Rattle.book.specs.Quote.{resting_buys, resting_sells};
ghost use Rattle.book.specs.Side.{Best};

use super::Book;
use crate::order::Resting;

impl Book {
    // The resting buy that an incoming sell meets first. Of a side it is `Quotes::best`; two names say which side.
    pub fn best_buy(&self) -> Option<Resting>
        ensures { Best resting_buys self.now.buys.items result }
    {
        self.buys.best()
    }

    // The resting sell that an incoming buy meets first.
    pub fn best_sell(&self) -> Option<Resting>
        ensures { Best resting_sells self.now.sells.items result }
    {
        self.sells.best()
    }
}
