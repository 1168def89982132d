// Comparing terms by a book that settles its equations.
// Stays two slices side by side: they are what is compared.
// Stays in the contracts that there are no roots: a comparison stacks the two it compares, and takes them off again.
// Stays in the contracts how ample the work words are: it is said for each number that suits, and not for one.
ghost use Rattle.std.specs.Prelude.{◌≡◌, ℕ, ◌≤◌, length};
ghost use Rattle.rewriting.specs.Theorems.{IsSettled};
ghost use Rattle.books.specs.Books.{told};
ghost use Rattle.engine.specs.Meeting.{Ample};
ghost use Rattle.engine.specs.Reducers.{LeftIdle};
ghost use Rattle.equal.specs.Judging.{RowsSay, answer_of, not_settled};

use crate::types::{Judged, Told};
use engine::Reducer;
use engine::types::NoRoom;

// The answer by what was found of two rows.
fn answer(found: Option<Result<bool, NoRoom>>) -> Told
    ensures { result ≡ answer_of found }
{
    match found {
        None => Told::NoTerm,
        Some(Ok(true)) => Told::Same,
        Some(Ok(false)) => Told::Different,
        Some(Err(NoRoom)) => Told::Full,
    }
}

// The answer where judging has another than that the book settles.
pub fn not_settled(judged: Judged) -> Told
    ensures { result ≡ not_settled judged }
{
    match judged {
        Judged::Room => Told::Unjudged,
        _ => Told::Unsettled,
    }
}

// What is to be said of two rows by a book that settles its equations.
pub fn compare_terms(reducer: &mut Reducer, one: &[u32], other: &[u32]) -> Told
    requires none { reducer.old.work.now.roots.top ≡ 0 }
    requires settled { IsSettled (told reducer.old.rules.now.book) }
    ensures idle { LeftIdle reducer.old reducer.new }
    ensures result { (n : ℕ) → Ample n reducer.old.work.now → length one.now ≤ n → length other.now ≤ n →
        RowsSay reducer.old.rules.now.book n one.now other.now result }
{
    answer(reducer.compare_rows(one, other))
}
