// Whether ways show that the rules of a book follow from its equations.
#![tactic(auto)]

ghost use Rattle.std.specs.Prelude.{◌≡◌};
ghost use Rattle.rewriting.specs.Answers.{Tells};
ghost use Rattle.ways.specs.Showing.{Roomy, Shown, WentOn};

mod differing;
mod steps;
mod tops;
mod walk;

use books::{Book, are_ways};
use store::{Roots, Store};
use walk::Walk;

// Whether the words are ways, one for each rule, that show that the rules follow from the equations.
// Stays a bool: it answers a question, and the store and the roots beside it are only used on the way.
pub fn shown<'w>(
    book: &'w Book<'w>,
    ways: &'w [u32],
    store: &'w mut Store,
    roots: &'w mut Roots,
) -> bool
    requires { (Roomy book.now ways.now store.old roots.old) × (roots.old.top ≡ 0) }
    ensures none { roots.new.top ≡ 0 }
    ensures kept { WentOn store.old roots.old store.new roots.new }
    ensures told { Tells result (Shown book.now ways.now) }
{
    if !are_ways(book.parts(), book.layout.rules(), ways) {
        return false;
    }
    let mut walk = Walk {
        book,
        ways,
        store,
        roots,
    };
    walk.shows()
}
