// Classes of places: every place for itself at first, and then merged.
ghost use Rattle.std.specs.Prelude.{◌≡◌, ℕ, ◌<◌, All};
ghost use Rattle.unification.specs.Classes.{label, Relabelled};

use crate::types::Classes;
use std::array;
use store::Place;

impl Classes {
    // Each place is a class of its own.
    pub fn new() -> Classes
        ensures { (i : ℕ) → i < 96 → label result i ≡ i }
    {
        Classes {
            labels: array::from_fn(Place),
        }
    }

    // The place by which the class of a place is known.
    pub fn known_by(&self, p: Place) -> Place
        requires { p.0 < 96 }
        ensures label { result.0 ≡ label self.now p.0 }
        ensures low { All (λ p. p.0 < 96) self.now.labels → result.0 < 96 }
    {
        self.labels[p.0]
    }

    // The class that is known by a becomes one with the class that is known by b.
    pub(crate) fn relabel(&mut self, a: Place, b: Place)
        ensures { Relabelled self.old a.0 b.0 self.new }
    {
        for label in self.labels.iter_mut() {
            if *label == a {
                *label = b;
            }
        }
    }
}
