// All pairs of a text, by one book.
ghost use Rattle.std.specs.Prelude.{length};
ghost use Rattle.equal.specs.Promises.{ToldPost};
ghost use Rattle.equal.specs.SessionRows.{SessionOn};

use crate::pairs::{Asking, Pairs};
use arguments::Stopped;
use equal::{Session, Told};
use lexing::pairs::Pair;
use std::io::Read;

// The rows of a book and its ways, and how many work words there are.
#[derive(Clone, Copy, Debug, PartialEq, Eq)]
struct Given<'a> {
    book: &'a [u32],
    ways: &'a [u32],
    work: usize,
}

// What is said of a pair by what is given: what `equal::tell` says of its two rows.
fn tell_pair(given: Given<'_>, session: &mut Session<'_, '_>, pair: &Pair) -> Told
    requires { SessionOn session.old given.book.now given.ways.now given.work }
    ensures same { SessionOn session.new given.entry.book.now given.entry.ways.now given.entry.work }
    ensures told { ToldPost given.entry.book.now given.entry.ways.now pair.now.one.items pair.now.other.items
        given.entry.work result }
{
    session.tell(pair.one.as_slice(), pair.other.as_slice())
}

// Judges the book, and answers all pairs that the reader gives.
// Stays book and ways beside the work words: each is lent by itself, as to `equal::tell`.
pub fn tell_pairs<'a, R: Read>(
    asking: Asking<'_>,
    reader: &mut R,
    book: &'a [u32],
    ways: &'a [u32],
    work: &mut [u32],
) -> Result<(), Stopped> {
    let given = Given {
        book,
        ways,
        work: work.len(),
    };
    let mut session = Session::new(book, ways, work);
    // The memory for pairs is taken only now: judging needs none of it.
    let mut pairs = Pairs::new(asking, reader)?;
    // Stays a counted loop: a text may come without end, and the count shows that the loop has one.
    for _turn in 0..u64::MAX {
        let Some(pair) = pairs.next()? else {
            break;
        };
        let told = tell_pair(given, &mut session, pair);
        pairs.answer(told)?;
    }
    pairs.flush()?;
    Ok(())
}
