// Images of classes: none at first, and then built from the images of parts.
ghost use Rattle.std.specs.Prelude.{◌≡◌, ℕ, ◌<◌, ◌≤◌, replicate, Some, None, slice_set};
ghost use Rattle.store.specs.Stores.{arity_in};
ghost use Rattle.unification.specs.Classes.{label};
ghost use Rattle.unification.specs.Images.{image, Complete, PartImages};

use crate::types::{Classes, Images};
use store::{Place, Store};

impl Images {
    pub fn new() -> Images
        ensures { result.at ≡ replicate 96 None }
    {
        Images { at: [None; 96] }
    }

    pub fn get(&self, p: Place) -> Option<Place>
        requires { p.0 < 96 }
        ensures { result ≡ image self.now p.0 }
    {
        self.at[p.0]
    }

    pub fn put(&mut self, p: Place, q: Place)
        requires { p.0 < 96 }
        ensures { self.new.at ≡ slice_set self.old.at p.0 (Some q) }
    {
        self.at[p.0] = Some(q);
    }

    // The images of the parts of the sign at a place, if they all are built.
    // Stays an array, of which the first n count: a slot has cells for four parts.
    pub fn parts(&self, store: &Store, classes: &Classes, p: Place, n: usize) -> Option<[Place; 4]>
        requires place { (p.0 < store.now.count) × (p.0 < 96) }
        requires arity { (arity_in store.now p.0 ≡ n) × (n ≤ 4) }
        requires labels { (i : ℕ) → i < p.0 → label classes.now i < 96 }
        ensures { PartImages store.now classes.now self.now p.0 n result }
    {
        let mut parts = [Place(0); 4];
        // Stays a loop over numbers: a part is read by its number, and one without an image ends it.
        for k in 0..n {
            parts[k] = self.get(classes.known_by(store.part(p, k)))?;
        }
        Some(parts)
    }

    // Whether the classes of the first n places all have images.
    // Stays with n beside the classes: the store that they belong to grows while images are built.
    pub fn complete(&self, classes: &Classes, n: usize) -> bool
        requires { (n ≤ 96) × ((i : ℕ) → i < n → label classes.now i < 96) }
        ensures { Complete classes.now self.now n result }
    {
        (0..n).all(|i| self.get(classes.known_by(Place(i))).is_some())
    }
}
