// How many work words are wanted.
ghost use Rattle.std.specs.Prelude.{◌+◌, length};
ghost use Rattle.rewriting.specs.Answers.{Tells};
ghost use Rattle.equal.specs.Promises.{TooFew};
ghost use Rattle.equal.specs.Judging.{SharedFor};

use engine::work::{LEAST, Work, share_out};

// Whether there are fewer work words than the least, and 64 for each word of two rows of these lengths together. No sum overflows.
fn too_few(work: usize, one: usize, other: usize) -> bool
    ensures { Tells result (TooFew work (one + other)) }
{
    work < LEAST || (work - LEAST) / 64 < one.saturating_add(other)
}

// The same for a book, its ways and two terms.
// Stays beside the other: it is the other at sums, and says which.
pub fn too_few_with_terms(work: usize, book: usize, ways: usize, one: usize, other: usize) -> bool
    ensures { Tells result (TooFew work (book + (ways + (one + other)))) }
{
    let terms = one.saturating_add(other);
    too_few(work, book, ways.saturating_add(terms))
}

// The work words shared out, if there are enough for two rows of these lengths.
pub fn share_for<'a>(work: &'a mut [u32], one: usize, other: usize) -> Option<Work<'a>>
    ensures { SharedFor (one + other) (length work.old) result }
{
    if too_few(work.len(), one, other) {
        return None;
    }
    share_out(work)
}
