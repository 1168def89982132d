// What judging finds, with all that is wanted to compare terms by the book.
// Stays an enum of its own beside `Judged`: that is an answer, which is copied and printed, and this holds the lent words.
ghost use Rattle.std.specs.Prelude.{length};
ghost use Rattle.equal.specs.Sessions.{FindingSays};

use crate::judging::judge_in;
use crate::settled_book::Settled;
use crate::types::Judged;
use crate::words::share_for;
use engine::work::Work;

// A book that settles its equations, with the work words in which its terms are compared.
#[derive(Drop)]
pub struct Comparer<'a, 'w> {
    pub settled: Settled<'a, 'a>,
    pub work: Work<'w>,
}

// What judging found.
#[derive(Drop)]
pub enum Finding<'a, 'w> {
    Settles(Comparer<'a, 'w>),
    // another answer than that the book settles its equations
    Refused(Judged),
}

// Judges a book by its words and those of its ways.
pub fn find<'a, 'w>(book: &'a [u32], ways: &'a [u32], work: &'w mut [u32]) -> Finding<'a, 'w>
    ensures { FindingSays book.now ways.now (length work.old) result }
{
    let Some(mut work) = share_for(work, book.len(), ways.len()) else {
        return Finding::Refused(Judged::Few);
    };
    match judge_in(book, ways, &mut work) {
        Judged::Settles => {
            let settled = Settled::new(book, ways);
            Finding::Settles(Comparer { settled, work })
        }
        judged => Finding::Refused(judged),
    }
}
