// Critical pairs: the two results where two rules meet.
// Stays in the contracts that an overlap stands in the book: it relates two values, and the overlap doesn't hold the book.
ghost use Rattle.std.specs.Prelude.{◌+◌, ◌≤◌};
ghost use Rattle.overlaps.specs.Pairs.{AllGiven, PairFound, ResultsBuilt, UnifierFound};
ghost use Rattle.overlaps.specs.Positions.{Stands};

use crate::letters::{all_letters, bind_hole, shifted};
use crate::overlap::with_hole;
use crate::types::{Overlap, Pair};
use books::{Book, Sides};
use engine::instance::row_instance;
use engine::types::Bindings;
use store::Store;
use unification::unify;

// The least replacement that makes the part and the other rule's left side one, in a store that is cleared for it.
fn unifier(book: &Book, overlap: Overlap, store: &mut Store) -> Option<Bindings>
    requires { (Stands book.now overlap) × (512 ≤ store.old.room) }
    ensures { UnifierFound book.now overlap store.old store.new result }
{
    store.clear();
    let letters = all_letters(store);
    let from = overlap.from;
    let to = overlap.to;
    let left = book.rule(overlap.outer).left;
    let part = row_instance(book.parts(), &left[from..to], &letters, store);
    let renamed = shifted(&letters);
    let other = row_instance(book.parts(), book.rule(overlap.inner).left, &renamed, store);
    unify(store, &letters, part, other)
}

// The two results, with what is put for letters: by the outer rule at the top, and by the inner one at the part.
fn results(book: &Book, overlap: Overlap, unifier: &Bindings, store: &mut Store) -> Pair
    requires stands { (Stands book.now overlap) × (AllGiven store.old unifier.now) }
    requires space { store.old.count + 96 ≤ store.old.limit }
    ensures { ResultsBuilt book.now overlap store.old unifier.now store.new result }
{
    let Sides { left, right } = book.rule(overlap.outer);
    let first = row_instance(book.parts(), right, unifier, store);
    let renamed = shifted(unifier);
    let inner = row_instance(
        book.parts(),
        book.rule(overlap.inner).right,
        &renamed,
        store,
    );
    let context = with_hole(left, overlap.from, overlap.to);
    let filling = bind_hole(unifier, inner);
    let second = row_instance(book.parts(), &context.words[..context.len], &filling, store);
    Pair { first, second }
}

// The two results with the least replacement, if there is one. The store is cleared for them.
pub fn critical_pair(book: &Book, overlap: Overlap, store: &mut Store) -> Option<Pair>
    requires { (Stands book.now overlap) × (512 ≤ store.old.room) }
    ensures { PairFound book.now overlap store.old store.new result }
{
    let unifier = unifier(book, overlap, store)?;
    Some(results(book, overlap, &unifier, store))
}
