// Two rows whose terms are compared by a book's rules.
ghost use Rattle.std.specs.Prelude.{◌≡◌};
ghost use Rattle.rewriting.specs.Answers.{Tells};
ghost use Rattle.engine.specs.Pairs.{TwoRows, RowsRead, RowsCompared};
ghost use Rattle.engine.specs.Reducers.{LeftIdle};

use crate::reducer::Reducer;
use crate::types::NoRoom;
use crate::work::Work;
use books::{Book, is_term};
use store::Full;

impl From<Full> for NoRoom {
    fn from(_: Full) -> NoRoom {
        NoRoom
    }
}

// Whether both are rows of terms over the book's signature, with letters below 16.
fn are_terms(book: &Book, left: &[u32], right: &[u32]) -> bool
    ensures { Tells result (TwoRows book.now left.now right.now) }
{
    is_term(book.parts(), left) && is_term(book.parts(), right)
}

impl Work<'_> {
    // Reads two rows: the lower root holds the left term, the upper one the right.
    fn read_rows(&mut self, book: &Book, left: &[u32], right: &[u32]) -> Result<(), NoRoom>
        requires { (TwoRows book.now left.now right.now) × (self.old.roots.top ≡ 0) }
        ensures { RowsRead book.now self.old left.now right.now self.new result }
    {
        self.store.read_row(&mut self.roots, book.parts(), left)?;
        self.store.read_row(&mut self.roots, book.parts(), right)?;
        Ok(())
    }
}

impl Reducer<'_, '_, '_> {
    // Whether the terms of two rows have one normal form; none if the words are not such rows.
    pub fn compare_rows(&mut self, left: &[u32], right: &[u32]) -> Option<Result<bool, NoRoom>>
        requires { self.old.work.now.roots.top ≡ 0 }
        ensures idle { LeftIdle self.old self.new }
        ensures result { RowsCompared self.old.rules.now.book self.old.work.now left.now right.now result }
    {
        let book = &self.rules.book;
        if !are_terms(book, left, right) {
            return None;
        }
        // Stays without `?`: the roots are taken away before the refusal is handed on.
        if let Err(e) = self.work.read_rows(book, left, right) {
            self.work.roots.truncate(0);
            return Some(Err(e));
        }
        Some(self.compare())
    }
}
