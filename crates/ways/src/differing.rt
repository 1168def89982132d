// The only part in which two terms differ.
ghost use Rattle.std.specs.Prelude.{◌≡◌, ◌<◌};
ghost use Rattle.store.specs.Stores.{arity_in};
ghost use Rattle.ways.specs.Steps.{FirstDifference, OnlyDifference};

use store::{Node, Place, Store};

// The first of the parts from one on, of n that the terms at p and q have, in which they differ.
// Stays beside that of `unification`: each is one `find`, and what they compare differs.
fn first_difference(store: &Store, p: Place, q: Place, from: usize, n: usize) -> Option<usize>
    requires places { (p.0 < store.now.count) × (q.0 < store.now.count) }
    requires arity { (arity_in store.now p.0 ≡ n) × (arity_in store.now q.0 ≡ n) }
    ensures { FirstDifference store.now p q n from result }
{
    (from..n).find(|k| store.part(p, *k) != store.part(q, *k))
}

// The only part in which the terms at p and q differ, if they have one sign.
pub fn only_difference(store: &Store, p: Place, q: Place) -> Option<usize>
    requires { (p.0 < store.now.count) × (q.0 < store.now.count) }
    ensures { OnlyDifference store.now p q result }
{
    let node = store.view(p);
    if node != store.view(q) {
        return None;
    }
    // Stays `let .. else`: what stands at a place is an enum with data, and no Option.
    let Node::Sign(_, n) = node else {
        return None;
    };
    let k = first_difference(store, p, q, 0, n)?;
    let later = first_difference(store, p, q, k + 1, n);
    later.is_none().then_some(k)
}
