// A list of at most N places, which can be copied.
ghost use Rattle.std.specs.Prelude.{◌≡◌, ◌+◌, ◌-◌, ◌<◌, ◌≤◌, ◌↔◌, [], ◌∷◌, ◌++◌, length, take, IsSome, IfNone, OnSome, slice_get};
ghost use Rattle.std.specs.Option.{option_to_list};
ghost use Rattle.engine.specs.Lists.{list_len};

use std::marker::Model;
use store::Place;

// At most N places: the first `len` of an array.
// Stays beside the library's vector of fixed capacity, which can't be copied.
#[derive(Clone, Copy)]
pub struct Places<const N: usize> {
    places: [Place; N],
    len: usize,
}

impl<const N: usize> Model for Places<N> {
    ghost use Rattle.std.specs.Prelude.{◌≡◌, ◌≤◌, ◌++◌, length, take, drop};
    ghost use Rattle.std.proofs.Common.{take-append-drop, length-take-le, arith};
    ghost use Rattle.engine.specs.Lists.{Listed};

    ghost Value = { Listed };

    ghost view = { λ l. record { items = take l.len l.places; spare = drop l.len l.places } };

    ghost invariant = { λ l. (l.len ≤ N) × (length l.places ≡ N) };

    ghost inverse = { λ l. record { places = l.items ++ l.spare; len = length l.items } };

    ghost inverse_ok = { λ l h i. record {
      places = take-append-drop l.len l.places i;
      len = length-take-le l.len l.places (omega (arith, h.0, h.1)) i;
    } };
}

impl<const N: usize> Places<N> {
    // No place.
    pub fn new() -> Self
        ensures { result.items ≡ [] }
    {
        // Any places will do. Where all is 0 the compiler calls memset, whose wide stores are waited for when `len` is read.
        Places {
            places: [Place(1); N],
            len: 0,
        }
    }

    // One more place, behind the others.
    pub fn push(&mut self, p: Place)
        requires { list_len self.old < N }
        ensures items { self.new.items ≡ self.old.items ++ p ∷ [] }
        ensures len { list_len self.new ≡ list_len self.old + 1 }
    {
        self.places[self.len] = p;
        self.len += 1;
    }

    // Takes the last place, if there is one.
    pub fn pop(&mut self) -> Option<Place>
        ensures items { self.old.items ≡ self.new.items ++ option_to_list result }
        ensures variant { IsSome result ↔ (0 < list_len self.old) }
        ensures len { OnSome result (list_len self.new + 1 ≡ list_len self.old) }
        ensures rest { self.new.items ≡ take (list_len self.old - 1) self.old.items }
        ensures value { result ≡ slice_get self.old.items (list_len self.old - 1) }
        ensures empty { IfNone result (self.new ≡ self.old) }
    {
        if self.len == 0 {
            return None;
        }
        self.len -= 1;
        Some(self.places[self.len])
    }

    // The places, in order.
    pub fn as_slice(&self) -> &[Place]
        ensures value { result.now ≡ self.now.items }
        ensures fits { length result.now ≤ N }
    {
        &self.places[..self.len]
    }
}
