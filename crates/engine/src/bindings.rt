// What is put for letters.
// Stays in the contracts that a letter is below 32: it is a fact of an index.
ghost use Rattle.std.specs.Prelude.{◌≡◌, ◌<◌, replicate, None};
ghost use Rattle.engine.specs.Matching.{bound, BoundNow};

use crate::types::Bindings;
use store::Place;

impl Bindings {
    pub fn new() -> Bindings
        ensures { result.at ≡ replicate 32 None }
    {
        Bindings { at: [None; 32] }
    }

    pub fn get(&self, x: u32) -> Option<Place>
        requires { x < 32 }
        ensures { result ≡ bound self.now x }
    {
        self.at[x as usize]
    }

    // Binds a letter to a place, unless it is bound to another.
    // Stays a bool, as that of a set's `insert`: there is no more to say of a letter that is bound to another place.
    pub fn bind(&mut self, x: u32, q: Place) -> bool
        requires { x < 32 }
        ensures { BoundNow self.old x q self.new result }
    {
        *self.at[x as usize].get_or_insert(q) == q
    }
}
