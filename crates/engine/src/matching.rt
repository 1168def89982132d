// Matching a pattern, which is a side of an equation or a rule, with a term.
// Stays in the contracts that places are inside the store: it relates them to a store that grows, and they don't hold it.
// Stays a store beside what is bound: matching reads the one and writes the other, and building does the reverse.
ghost use Rattle.std.specs.Prelude.{◌≡◌, ℕ, ◌<◌, ◌≤◌, List, length, Some};
ghost use Rattle.rewriting.specs.Terms.{Term};
ghost use Rattle.books.specs.Reading.{SymbolAt};
ghost use Rattle.engine.specs.Lists.{list_len};
ghost use Rattle.store.specs.Stores.{term_in};
ghost use Rattle.engine.specs.Matching.{given, AllInside, MatchedOn, Pattern, PlacesInside, SomePattern, Turns};

use crate::places::open;
use crate::types::{Bindings, Pending};
use books::words::{Symbol, symbol_at};
use store::{Place, Store};

// Matches the next pending place with a symbol of the pattern.
// Stays a bool: that the pattern doesn't fit here is all there is to say.
fn match_symbol(
    symbol: Symbol,
    store: &Store,
    pending: &mut Pending,
    bindings: &mut Bindings,
) -> bool
    requires some { (0 < list_len pending.old) × (list_len pending.old ≤ 32) }
    requires places_inside { PlacesInside store.now pending.old.items }
    ensures { (ws : List ℕ) (a : ℕ) → SymbolAt ws a (Some symbol) →
        Turns ws store.now a pending.old.items bindings.old pending.new.items bindings.new result }
{
    let p = pending.pop().unwrap();
    match symbol {
        Symbol::Letter(x) => x < 32 && bindings.bind(x, p),
        Symbol::Sign(f) => open(pending, store, p, f),
    }
}

// Binds the letters of a pattern, so that it becomes the term at p, as far as they are not bound yet; or says that nothing put for them,
// as far as they are bound, does that.
// Stays a bool with what is bound behind a reference: copying it for each rule that is tried makes a run a quarter longer.
pub fn bind_pattern(pattern: &[u32], store: &Store, p: Place, bindings: &mut Bindings) -> bool
    requires pattern { (p.0 < store.now.count) × (SomePattern pattern.now store.now p) }
    requires bindings { (length bindings.old.at ≡ 32) × (AllInside store.now bindings.old) }
    ensures { (ps : List ℕ) (l : Term) → Pattern ps pattern.now l store.now p →
        MatchedOn store.now bindings.old l (term_in store.now p.0) (given result bindings.new) }
{
    let mut pending = Pending::new();
    pending.push(p);
    for pair in pattern.chunks_exact(2) {
        let symbol = symbol_at(pair, 0).unwrap();
        if !match_symbol(symbol, store, &mut pending, bindings) {
            return false;
        }
    }
    true
}

// The same with what is bound by value; none if nothing put for the letters does that.
pub fn match_pattern(
    pattern: &[u32],
    store: &Store,
    p: Place,
    mut bindings: Bindings,
) -> Option<Bindings>
    requires pattern { (p.0 < store.now.count) × (SomePattern pattern.now store.now p) }
    requires bindings { (length bindings.at ≡ 32) × (AllInside store.now bindings) }
    ensures { (ps : List ℕ) (l : Term) → Pattern ps pattern.now l store.now p →
        MatchedOn store.now bindings l (term_in store.now p.0) result }
{
    bind_pattern(pattern, store, p, &mut bindings).then_some(bindings)
}
