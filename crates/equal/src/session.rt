// A book that is judged once, and many terms that are compared by it.
ghost use Rattle.equal.specs.Sessions.{FindingSays};

use crate::finding::{Finding, find};
use crate::terms::not_settled;
use crate::types::Told;
use crate::words::too_few_with_terms;

// A book that was judged with its ways in lent work words, and what was found. Terms can be compared by it, any number of times. What is
// known of it is a fact about each such value: the bare fact, which gives back all that is known.
#[derive(Drop)]
pub struct Session<'a, 'w> {
    book: &'a [u32],
    ways: &'a [u32],
    // how many work words were lent
    lent: usize,
    finding: Finding<'a, 'w>,
    ghost found: { ∥ FindingSays book.now ways.now lent finding ∥₁ },
}

impl<'a, 'w> Session<'a, 'w> {
    ghost use Rattle.std.specs.Prelude.{List, ℕ, length};
    ghost use Rattle.equal.specs.Promises.{ToldPost};
    ghost use Rattle.equal.specs.SessionRows.{SessionOn};

    // Judges a book by its words and those of its ways, in words that are lent for work. Whatever the answer is, even that there are too few
    // of these, it is kept for `tell`.
    pub fn new(book: &'a [u32], ways: &'a [u32], work: &'w mut [u32]) -> Session<'a, 'w>
        ensures { SessionOn result book.now ways.now (length work.old) }
    {
        let lent = work.len();
        let finding = find(book, ways, work);
        Session {
            book,
            ways,
            lent,
            finding,
        }
    }

    // Whether two terms are equal by the equations of the book, if it settles them: what `equal::tell` says of them. The session is as
    // ready for the next two as it was for these.
    pub fn tell(&mut self, one: &[u32], other: &[u32]) -> Told
        ensures same { (s h : List ℕ) (w : ℕ) → SessionOn self.old s h w → SessionOn self.new s h w }
        ensures told { (s h : List ℕ) (w : ℕ) → SessionOn self.old s h w → ToldPost s h one.now other.now w result }
    {
        if too_few_with_terms(
            self.lent,
            self.book.len(),
            self.ways.len(),
            one.len(),
            other.len(),
        ) {
            return Told::Small;
        }
        match &mut self.finding {
            Finding::Settles(comparer) => comparer.settled.compare(one, other, &mut comparer.work),
            Finding::Refused(judged) => not_settled(*judged),
        }
    }
}
