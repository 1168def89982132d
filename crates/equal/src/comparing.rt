// Comparing many terms by a book that was judged once.
// Stays in the contracts how ample the work words are: it is said for each number that suits, and not for one.
ghost use Rattle.std.specs.Prelude.{◌≡◌, ℕ, ◌≤◌, length};
ghost use Rattle.engine.specs.Meeting.{Ample};
ghost use Rattle.equal.specs.declared.types.Judged.TheVariants.{Settles};
ghost use Rattle.equal.specs.Promises.{JudgedSays};
ghost use Rattle.equal.specs.Judging.{RowsSay};
ghost use Rattle.equal.specs.Serving.{Serves, StillServes};

use crate::settled_book::Settled;
use crate::terms::compare_terms;
use crate::types::Told;
use books::Book;
use engine::Reducer;
use engine::work::Work;
use order::Terminating;

impl<'a, 'b> Settled<'a, 'b> {
    // A book of which judging says that it settles its equations.
    pub fn new(book: &'a [u32], ways: &'b [u32]) -> Settled<'a, 'b>
        requires { JudgedSays book.now ways.now Settles }
        ensures book { result.rules.book.words.now ≡ book.now }
        ensures ways { result.ways.now ≡ ways.now }
    {
        let book = Book::read(book).unwrap();
        Settled {
            rules: Terminating { book },
            ways,
        }
    }
}

impl Settled<'_, '_> {
    // What is to be said of two rows. The store is the one in which the book was judged, as earlier comparisons left it.
    pub fn compare(&self, one: &[u32], other: &[u32], work: &mut Work) -> Told
        requires { Serves self.now.rules.book.words.now work.old }
        ensures serves { StillServes self.now.rules.book.words.now work.old work.new }
        ensures result { (n : ℕ) → Ample n work.old → length one.now ≤ n → length other.now ≤ n →
            RowsSay self.now.rules.book n one.now other.now result }
    {
        let mut reducer = Reducer {
            rules: &self.rules,
            work,
        };
        compare_terms(&mut reducer, one, other)
    }
}
