// A book whose rules go down, so that each chain of steps comes to an end.
ghost use Rattle.rewriting.specs.Order.{rank, AllDown};
ghost use Rattle.books.specs.Books.{told};

use crate::down::first_up;
use books::Book;

// Such a book. The fact is stated barely, since a field's fact has to be one that can be had in one way only; it can be decided, so
// nothing is lost.
#[derive(Drop)]
pub struct Terminating<'a> {
    pub book: Book<'a>,
    pub ghost down: { ∥ AllDown (rank (told book).ranks) (told book).rules ∥₁ },
}

impl<'a> Terminating<'a> {
    ghost use Rattle.order.specs.Terminating.{KnownOrUp};

    // The book, if all its rules go down; or the number of the first that does not.
    pub fn new(book: Book<'a>) -> Result<Terminating<'a>, usize>
        ensures { KnownOrUp book.entry result }
    {
        match first_up(&book) {
            Some(i) => Err(i),
            None => Ok(Terminating { book }),
        }
    }
}
