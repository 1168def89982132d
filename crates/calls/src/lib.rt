// Calls for C.
#![tactic(auto)]

ghost use Rattle.std.specs.Prelude.{length};
ghost use Rattle.calls.specs.Calls.{SomeAnswer};

mod rows;
pub mod types;

use crate::rows::answer;
use crate::types::Outcome;

// Writes the row of the normal form of a term. The work words may hold anything, and hold nothing of use afterwards.
// Stays slices side by side: they come from C.
#[unsafe(no_mangle)]
pub extern "C" fn normal_form(
    book: &[u32],
    term: &[u32],
    work: &mut [u32],
    out: &mut [u32],
) -> Outcome
    ensures { SomeAnswer book.now term.now (length work.old) (length out.old)
        out.new result }
{
    Outcome::from(answer(book, term, work, out))
}
