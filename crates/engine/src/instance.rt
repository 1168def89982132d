// Building an instance of a term from its row, with what is put for its letters.
ghost use Rattle.std.specs.Prelude.{◌≡◌, ◌+◌, ◌<◌, ◌≤◌};
ghost use Rattle.rewriting.specs.Terms.{Term, count};
ghost use Rattle.store.specs.Transfers.{inner};
ghost use Rattle.books.specs.Layouts.{FewParts};
ghost use Rattle.engine.specs.Matching.{AllInside};
ghost use Rattle.engine.specs.Building.{Buildable, Fillable, BehindBuilt, RowInstanceBuilt, RowPartsBuilt, SymbolBuilt};

use crate::places::take;
use crate::types::{Bindings, Built};
use books::words::{Symbol, symbol_at};
use store::{Place, Store};

// Builds the term of a symbol whose parts are built.
fn build_symbol(
    parts: &[u32],
    symbol: Symbol,
    bindings: &Bindings,
    store: &mut Store,
    built: &mut Built,
)
    requires space { store.old.count < store.old.limit }
    requires buildable { Buildable parts.now symbol bindings.now store.old built.old.items }
    ensures { SymbolBuilt parts.now symbol bindings.now store.old built.old.items store.new built.new.items }
{
    match symbol {
        Symbol::Letter(x) => built.push(bindings.get(x).unwrap()),
        Symbol::Sign(f) => {
            let n = parts[f as usize] as usize;
            let args = take(built, n);
            let p = store.share_sign(f, args, n);
            built.push(p);
        }
    }
}

// Builds the parts of the term whose row over a signature is given, with the bound places' terms put for its letters, from the row's last
// symbol to its second: the places of the parts, the first one last.
fn build_behind(parts: &[u32], row: &[u32], bindings: &Bindings, store: &mut Store) -> Built
    requires few_parts { (FewParts parts.now) × (((t : Term) × Fillable parts.now row.now bindings.now t)) }
    requires space { (store.old.count + 32 ≤ store.old.limit) × (AllInside store.old bindings.now) }
    ensures { (t : Term) → Fillable parts.now row.now bindings.now t →
        BehindBuilt store.old bindings.now t store.new result.items }
{
    let mut built = Built::new();
    for pair in row[2..].rchunks_exact(2) {
        let symbol = symbol_at(pair, 0).unwrap();
        build_symbol(parts, symbol, bindings, store, &mut built);
    }
    built
}

// The place of that term.
pub fn row_instance(parts: &[u32], row: &[u32], bindings: &Bindings, store: &mut Store) -> Place
    requires few_parts { (FewParts parts.now) × (((t : Term) × Fillable parts.now row.now bindings.now t)) }
    requires space { (store.old.count + 32 ≤ store.old.limit) × (AllInside store.old bindings.now) }
    ensures { (t : Term) → Fillable parts.now row.now bindings.now t →
        RowInstanceBuilt store.old bindings.now t store.new result }
{
    let mut built = build_behind(parts, row, bindings, store);
    let symbol = symbol_at(row, 0).unwrap();
    build_symbol(parts, symbol, bindings, store, &mut built);
    built.as_slice()[0]
}

// The places of its n parts: the sign at its top is not made.
// Stays an array, of which the first n count, as at `take`.
pub fn row_parts(
    parts: &[u32],
    row: &[u32],
    n: usize,
    bindings: &Bindings,
    store: &mut Store,
) -> [Place; 4]
    requires few_parts { (FewParts parts.now) × (((t : Term) × Fillable parts.now row.now bindings.now t)) }
    requires space { (store.old.count + 32 ≤ store.old.limit) × (AllInside store.old bindings.now) }
    requires arity { (n ≤ 4) × ((t : Term) → Fillable parts.now row.now bindings.now t → count (inner t) ≡ n) }
    ensures { (t : Term) → Fillable parts.now row.now bindings.now t →
        RowPartsBuilt store.old bindings.now t n store.new result }
{
    let mut built = build_behind(parts, row, bindings, store);
    take(&mut built, n)
}
