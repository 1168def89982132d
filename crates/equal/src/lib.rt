// Judging books of equations and rules, and comparing terms by a book that settles its equations.
#![tactic(auto)]

ghost use Rattle.std.specs.Prelude.{length};
ghost use Rattle.equal.specs.Promises.{JudgedPost, ToldPost};

mod comparing;
mod equations;
mod finding;
mod judging;
mod rules;
mod session;
mod settled_book;
mod terms;
pub mod types;
mod words;

use judging::judge_in;
pub use session::Session;
pub use types::{Judged, Told};
use words::{share_for, too_few_with_terms};

// Whether a book settles its equations, by its words and those of its ways; or the first thing that fails.
// Stays slices side by side, in both calls: callers lend each by itself.
pub fn judge(book: &[u32], ways: &[u32], work: &mut [u32]) -> Judged
    ensures { JudgedPost book.now ways.now (length work.old) result }
{
    let Some(mut work) = share_for(work, book.len(), ways.len()) else {
        return Judged::Few;
    };
    judge_in(book, ways, &mut work)
}

// Whether two terms are equal by the equations of a book that settles them.
pub fn tell<'a>(
    book: &'a [u32],
    ways: &'a [u32],
    one: &[u32],
    other: &[u32],
    work: &mut [u32],
) -> Told
    ensures { ToldPost book.now ways.now one.now other.now
        (length work.old) result }
{
    // What a session would say of them is said at once, since the book need not be judged for it.
    if too_few_with_terms(work.len(), book.len(), ways.len(), one.len(), other.len()) {
        return Told::Small;
    }
    Session::new(book, ways, work).tell(one, other)
}
