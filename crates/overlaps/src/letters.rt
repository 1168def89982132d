// The letters of two rules in a store: those of the second are renamed.
ghost use Rattle.std.specs.Prelude.{◌≡◌, ◌≤◌};
ghost use Rattle.engine.specs.Matching.{Bound};
ghost use Rattle.overlaps.specs.Pairs.{Shifted, LettersMade, HoleBound};

use crate::types::{HOLE, LETTERS};
use engine::types::Bindings;
use store::{Place, Store};

// The places of all 32 letters, added to a store with nothing in it.
pub fn all_letters(store: &mut Store) -> Bindings
    requires { (store.old.count ≡ 0) × (32 ≤ store.old.limit) }
    ensures { LettersMade 32 store.old store.new result }
{
    let mut letters = Bindings::new();
    // Stays a loop over numbers: tried `array::from_fn`: nothing is known after it of the store that its closure changed.
    for x in 0..32u32 {
        letters.at[x as usize] = Some(store.share_letter(x));
    }
    letters
}

// What is bound to the renamed letters, for the letters themselves.
pub fn shifted(bindings: &Bindings) -> Bindings
    ensures { Shifted bindings.now result }
{
    let mut at = [None; 2 * LETTERS];
    at[..LETTERS].copy_from_slice(&bindings.at[LETTERS..]);
    Bindings { at }
}

// The bindings with another place for the hole of a context.
pub fn bind_hole(bindings: &Bindings, p: Place) -> Bindings
    requires { Bound bindings.now 16 }
    ensures { HoleBound bindings.now p result }
{
    let mut bound = *bindings;
    bound.at[HOLE] = Some(p);
    bound
}
