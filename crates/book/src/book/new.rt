ghost use Rattle.std.specs.Prelude.{◌≡◌, [], IfOk};

use super::Book;
use crate::side::Quotes;
use std::alloc::{AllocError, Global};

impl Book {
    // An empty book, with all the memory that it will ever need.
    pub fn new(heap: Global) -> Result<Book, AllocError>
        ensures { IfOk result (λ b. (b.buys.items ≡ []) × (b.sells.items ≡ []) × (b.taken ≡ 0)) }
    {
        let buys = Quotes::new(heap)?;
        let sells = Quotes::new(heap)?;
        Ok(Book {
            buys,
            sells,
            taken: 0,
        })
    }
}
