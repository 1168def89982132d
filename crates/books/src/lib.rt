// Reading rows of words as books, terms and ways.
#![tactic(auto)]

ghost use Rattle.books.specs.Theorems.{OneReading, SumRow};

mod book;
pub mod index;
pub mod layout;
pub mod row;
pub mod ways;
pub mod words;

pub use book::read_book;
pub use layout::Layout;
pub use row::{Book, Sides};
pub use ways::{are_ways, is_term};

// A row is the writing of at most one book, of at most one term, and of at most one list of ways.
pub fn one_reading()
    ensures { OneReading }
{}

// The row of a sum.
pub fn sum_row()
    ensures { SumRow }
{}
