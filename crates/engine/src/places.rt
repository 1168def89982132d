// The places that are still to be matched, and those of terms that are built and not yet parts of another.
ghost use Rattle.std.specs.Prelude.{◌≡◌, ◌+◌, ◌<◌, ◌≤◌};
ghost use Rattle.engine.specs.Lists.{list_len};
ghost use Rattle.store.specs.Stores.{arity_in, parts_in};
ghost use Rattle.engine.specs.Matching.{PartsPending, PlacesInside, Pushed};
ghost use Rattle.engine.specs.Building.{PartTaken, Taken};

use crate::types::{Built, Pending};
use store::{Node, Place, Store};

// The parts of the sign at a place, the first one last.
// Stays beside the store's: that one fills roots and may refuse, and this one fills places and may not.
fn push_parts(pending: &mut Pending, store: &Store, p: Place, n: usize)
    requires parts { (p.0 < store.now.count) × ((arity_in store.now p.0 ≡ n) × (n ≤ 4)) }
    requires room { list_len pending.old + n ≤ 36 }
    requires places_inside { PlacesInside store.now pending.old.items }
    ensures { Pushed store.now pending.old.items (parts_in store.now p.0 n) pending.new.items }
{
    // Stays a loop over numbers: the store gives the parts of a sign by their numbers.
    for k in (0..n).rev() {
        pending.push(store.part(p, k));
    }
}

// The parts of the sign at a place are to be matched next, if the sign there is f.
// Stays a bool: a sign is f or is another, and that is all there is to say.
pub fn open(pending: &mut Pending, store: &Store, p: Place, f: u32) -> bool
    requires inside { p.0 < store.now.count }
    requires room { list_len pending.old + 4 ≤ 36 }
    requires places_inside { PlacesInside store.now pending.old.items }
    ensures { PartsPending store.now p f pending.old.items pending.new.items result }
{
    match store.view(p) {
        Node::Sign(g, n) if g == f => {
            push_parts(pending, store, p, n);
            true
        }
        _ => false,
    }
}

// Part k of n: the next place, which is taken, if there is such a part.
fn take_part(built: &mut Built, k: usize, n: usize) -> Place
    requires { k < n → 0 < list_len built.old }
    ensures { PartTaken built.old.items k n result built.new.items }
{
    if k < n {
        built.pop().unwrap()
    } else {
        Place(0)
    }
}

// Takes the last n places, to be the parts of a sign: the last one is the first part.
// Stays an array, of which the first n count: a slot has cells for four parts.
pub fn take(built: &mut Built, n: usize) -> [Place; 4]
    requires { (n ≤ 4) × (n ≤ list_len built.old) }
    ensures { Taken built.old.items n result built.new.items }
{
    // Stays four calls: with a loop a run that counts down takes a tenth longer.
    [
        take_part(built, 0, n),
        take_part(built, 1, n),
        take_part(built, 2, n),
        take_part(built, 3, n),
    ]
}
