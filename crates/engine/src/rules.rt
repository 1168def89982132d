// Rewriting at the top of a term, by the lowest-numbered rule that matches.
// Stays in the contracts that the rules can be used at p: it relates a book, a store and a place, which are lent apart.
ghost use Rattle.std.specs.Prelude.{◌≡◌, ◌+◌, ◌<◌, ◌≤◌, ◌≢◌, false};
ghost use Rattle.rewriting.specs.Terms.{Term, Terms, sign};
ghost use Rattle.store.specs.Transfers.{RowOf};
ghost use Rattle.store.specs.Stores.{term_in, arity_in};
ghost use Rattle.books.specs.Books.{told, rule_in};
ghost use Rattle.engine.specs.Matching.{given, MatchedOn, nothing};
ghost use Rattle.engine.specs.Rewriting.{Rewritable, Rewritten, RuleFound, Candidate, FirstPartsApart, Opening};

use crate::instance::row_instance;
use crate::matching::bind_pattern;
use crate::types::Bindings;
use books::Book;
use books::words::{Symbol, symbol_at};
use store::{Node, Place, Store};

// Whether the term at a place has the sign g at its top.
fn has_sign(store: &Store, q: Place, g: u32) -> bool
    requires { q.0 < store.now.count }
    ensures { result ≡ false → (us : Terms) → term_in store.now q.0 ≢ sign g us }
{
    matches!(store.view(q), Node::Sign(f, _) if f == g)
}

// Whether the first part of a left side is a letter, or has the sign of the first part of the term at p. Most rules with the term's top
// sign that don't match fail here already.
fn first_parts_agree(left: &[u32], store: &Store, p: Place) -> bool
    requires { (p.0 < store.now.count) × (0 < arity_in store.now p.0) }
    ensures { result ≡ false → FirstPartsApart left.now store.now p }
{
    match symbol_at(left, 2) {
        Some(Symbol::Sign(g)) => has_sign(store, store.part(p, 0), g),
        _ => true,
    }
}

// Matches the left side of rule i with the term at p, which have the same top sign, of n parts.
// Stays a bool with what is bound behind a reference, as at `bind_pattern`.
fn match_rule(
    book: &Book,
    i: usize,
    store: &Store,
    p: Place,
    n: usize,
    bindings: &mut Bindings,
) -> bool
    requires { (Rewritable book.now store.now p) × (Candidate book.now store.now p n i) }
    ensures { MatchedOn store.now nothing (rule_in book.now i).left (term_in store.now p.0) (given result bindings.new) }
{
    let left = book.rule(i).left;
    if n > 0 && !first_parts_agree(left, store, p) {
        return false;
    }
    *bindings = Bindings::new();
    bind_pattern(left, store, p, bindings)
}

// The lowest-numbered rule whose left side matches the term at p, with what is put for its letters, by reference as at `bind_pattern`.
pub(crate) fn find_rule(
    book: &Book,
    store: &Store,
    p: Place,
    bindings: &mut Bindings,
) -> Option<usize>
    requires { Rewritable book.now store.now p }
    ensures { RuleFound book.now store.now p bindings.new result }
{
    // Stays `let .. else`: what stands at a place is an enum with data, and no Option.
    let Node::Sign(f, n) = store.view(p) else {
        return None;
    };
    let mut next = book.index.first_with(f);
    // Stays a while: each rule says which is the next one with its top sign.
    while let Some(i) = next {
        if match_rule(book, i, store, p, n, bindings) {
            return Some(i);
        }
        next = book.index.next_like(i);
    }
    None
}

// The sign at the top of a right side and how many parts it has, if it has some and no rule could be used there. It needs no slot before
// its parts are normal forms. What is promised holds of any sign with parts: to ask for rules saves work, and is not needed for the rest.
pub(crate) fn opening(book: &Book, right: &[u32]) -> Option<(u32, usize)>
    requires { (t : Term) × RowOf (told book.now).parts right.now t }
    ensures { Opening (told book.now).parts right.now result }
{
    // Stays `let .. else`: a symbol is an enum with data, and no Option.
    let Some(Symbol::Sign(g)) = symbol_at(right, 0) else {
        return None;
    };
    let n = book.parts()[g as usize] as usize;
    (n > 0 && book.index.first_with(g).is_none()).then_some((g, n))
}

// What one step at the top makes of the term at p, by the lowest-numbered rule that can be used there, if there is one.
pub fn rewrite(book: &Book, store: &mut Store, p: Place) -> Option<Place>
    requires { (Rewritable book.now store.old p) × (store.old.count + 32 ≤ store.old.limit) }
    ensures { Rewritten (told book.now).rules store.old p store.new result }
{
    let mut bindings = Bindings::new();
    let i = find_rule(book, store, p, &mut bindings)?;
    Some(row_instance(book.parts(), book.rule(i).right, &bindings, store))
}
