// Whether the rules of a book go down.
ghost use Rattle.std.specs.Prelude.{◌<◌, length};
ghost use Rattle.rewriting.specs.Answers.{Tells};
ghost use Rattle.books.specs.Books.{told};
ghost use Rattle.order.specs.Downward.{GoesDown, FirstUp};

use crate::table::Table;
use crate::terms::Comparison;
use books::{Book, Sides};

// Whether rule i goes down: its left side is greater than its right side by the book's ranks.
pub fn goes_down(book: &Book, i: usize) -> bool
    requires { i < length (told book.now).rules }
    ensures { Tells result (GoesDown book.now i) }
{
    let Sides { left, right } = book.rule(i);
    let comparison = Comparison {
        left,
        right,
        parts: book.parts(),
        ranks: book.ranks(),
    };
    comparison.greater(&mut Table::new(), 0, 0)
}

// The number of the first rule that does not go down.
pub fn first_up(book: &Book) -> Option<usize>
    ensures { FirstUp book.now result }
{
    // Stays a labelled loop with a value: the project keeps this form here.
    let mut i = 0usize;
    'rules: loop {
        if i >= book.layout.rules() {
            break 'rules None;
        }
        if !goes_down(book, i) {
            break 'rules Some(i);
        }
        i += 1;
    }
}
