// Equations at the top of two terms.
// Stays in the contracts that two terms are the book's: it relates the walk to two places.
ghost use Rattle.std.specs.Prelude.{◌<◌, length};
ghost use Rattle.rewriting.specs.Answers.{Tells};
ghost use Rattle.store.specs.Stores.{term_in};
ghost use Rattle.books.specs.Books.{told, equation_in};
ghost use Rattle.ways.specs.Steps.{Comparable, Equated, SidesAre};

use crate::walk::Walk;
use books::Sides;
use engine::matching::bind_pattern;
use engine::types::Bindings;
use store::Place;

impl Walk<'_, '_, '_> {
    // Whether the sides of equation i, with the same put for their letters, are the terms at p and q. A letter may stand on one side only.
    fn matched(&self, i: usize, p: Place, q: Place) -> bool
        requires { (Comparable self.now.book.now self.now.store.now p q) × (i < length (told self.now.book.now).eqs) }
        ensures { Tells result (SidesAre (equation_in self.now.book.now i) (term_in self.now.store.now p.0)
            (term_in self.now.store.now q.0)) }
    {
        let Sides { left, right } = self.book.equation(i);
        let mut bindings = Bindings::new();
        bind_pattern(left, self.store, p, &mut bindings)
            && bind_pattern(right, self.store, q, &mut bindings)
    }

    // Whether an equation leads from the term at p to that at q at the top, either way round.
    pub fn equated(&self, p: Place, q: Place) -> bool
        requires { Comparable self.now.book.now self.now.store.now p q }
        ensures { Tells result (Equated (told self.now.book.now).eqs (term_in self.now.store.now p.0) (term_in self.now.store.now q.0)) }
    {
        (0..self.book.layout.equations()).any(|i| self.matched(i, p, q) || self.matched(i, q, p))
    }
}
