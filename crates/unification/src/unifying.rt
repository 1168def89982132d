// Unification: classes of places that have to become one, closed and without cycles, give the least replacement.
ghost use Rattle.std.specs.Prelude.{ℕ, ◌+◌, ◌<◌, ◌≤◌};
ghost use Rattle.store.specs.Stores.{Sound, Grown, term_in};
ghost use Rattle.unification.specs.Unifiers.{Ready, Unified};
ghost use Rattle.unification.specs.Images.{HasClass, LetterImages};

use crate::building::build;
use crate::closing::close;
use crate::types::{Classes, Images};
use engine::types::Bindings;
use std::array;
use store::{Place, Store};

// Binds each letter to the image of its class.
fn bind_letters(letters: &Bindings, classes: &Classes, images: &Images) -> Bindings
    requires { (x : ℕ) → x < 32 → HasClass letters.now classes.now x }
    ensures { LetterImages letters.now classes.now images.now result }
{
    Bindings {
        at: array::from_fn(|x| images.get(classes.known_by(letters.at[x].unwrap()))),
    }
}

// The least replacement that makes the terms at two places one, as places for the 32 letters; or that there is none.
pub fn unify(store: &mut Store, letters: &Bindings, p: Place, q: Place) -> Option<Bindings>
    requires { (Ready store.old letters.now) × ((p.0 < store.old.count) × (q.0 < store.old.count)) }
    ensures sound { Sound store.new }
    ensures grown { Grown store.old store.new }
    ensures few { store.new.count ≤ store.old.count + 96 }
    ensures unified { Unified store.new (term_in store.old p.0) (term_in store.old q.0) result }
{
    let n = store.count;
    let classes = close(store, p, q).ok()?;
    let mut images = Images::new();
    build(store, n, &classes, &mut images);
    if !images.complete(&classes, n) {
        return None;
    }
    Some(bind_letters(letters, &classes, &images))
}
