// The normal form of a term, from rows to a row.
ghost use Rattle.std.specs.Prelude.{◌≡◌, ℕ, length};
ghost use Rattle.rewriting.specs.Terms.{Term};
ghost use Rattle.books.specs.Books.{told};
ghost use Rattle.books.specs.Rows.{Of};
ghost use Rattle.engine.specs.Meeting.{Ample};
ghost use Rattle.calls.specs.Calls.{Answers, NormalAnswers, WordsAnswer};

use crate::types::Refusal;
use books::{Book, is_term};
use engine::Reducer;
use engine::work::share_out;
use order::Terminating;

// Reads a term's row into an empty store, and writes the row of its normal form; says how many words that is.
fn through(reducer: &mut Reducer, term: &[u32], out: &mut [u32]) -> Result<usize, Refusal>
    requires of { (t : Term) × Of (told reducer.old.rules.now.book).parts term.now t }
    requires empty { (reducer.old.work.now.store.count ≡ 0) × (reducer.old.work.now.roots.top ≡ 0) }
    ensures { (n : ℕ) → Ample n reducer.old.work.now →
        NormalAnswers (told reducer.old.rules.now.book) term.now n (length out.old) out.new result }
{
    let book = &reducer.rules.book;
    let work = &mut *reducer.work;
    work.store.read_row(&mut work.roots, book.parts(), term)?;
    reducer.normalize()?;
    let work = &mut *reducer.work;
    let normal = work.roots.place(0);
    let written = work.store.write_row(&mut work.roots, normal, out)?;
    Ok(written)
}

// The same in lent words.
fn in_words(
    rules: &Terminating,
    term: &[u32],
    work: &mut [u32],
    out: &mut [u32],
) -> Result<usize, Refusal>
    requires { (t : Term) × Of (told rules.now.book).parts term.now t }
    ensures { WordsAnswer (told rules.now.book) term.now (length work.old) (length out.old)
        out.new result }
{
    let mut work = share_out(work).ok_or(Refusal::Few)?;
    let mut reducer = Reducer {
        rules,
        work: &mut work,
    };
    through(&mut reducer, term, out)
}

// Writes the row of the normal form of a term of a book whose rules go down, both given by their rows; says how many words that is.
pub fn answer(
    words: &[u32],
    term: &[u32],
    work: &mut [u32],
    out: &mut [u32],
) -> Result<usize, Refusal>
    ensures { Answers words.now term.now (length work.old) (length out.old)
        out.new result }
{
    let book = Book::read(words).ok_or(Refusal::NoBook)?;
    let rules = Terminating::new(book).map_err(Refusal::Up)?;
    if !is_term(rules.book.parts(), term) {
        return Err(Refusal::NoTerm);
    }
    in_words(&rules, term, work, out)
}
