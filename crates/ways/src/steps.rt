// One step of an equation at one place, from one term to another or to itself.
// Stays bools with `let .. else`: each function answers yes or no, and the roots beside it are only used on the way.
ghost use Rattle.std.specs.Prelude.{◌+◌, ◌-◌, ◌<◌, ◌≢◌};
ghost use Rattle.rewriting.specs.Answers.{Tells};
ghost use Rattle.rewriting.specs.Terms.{count};
ghost use Rattle.rewriting.specs.Ways.{One};
ghost use Rattle.store.specs.Roots.{HasRoots};
ghost use Rattle.store.specs.Stores.{Inside, held, term_in};
ghost use Rattle.store.specs.Transfers.{inner};
ghost use Rattle.books.specs.Books.{told};
ghost use Rattle.ways.specs.Steps.{Comparable, Expanded, Walkable, Walked, TwoTerms, StepTold};
ghost use Rattle.ways.specs.Walks.{OnlyRoots};

use crate::differing::only_difference;
use crate::walk::Walk;
use store::{Node, Place};

impl Walk<'_, '_, '_> {
    // Whether one step leads from the term at p to that at q, which is another: at the top, or at the only part in which they differ.
    fn leads_to_other(&self, mut p: Place, mut q: Place) -> bool
        requires { (Comparable self.now.book.now self.now.store.now p q) × (p.0 ≢ q.0) }
        ensures { Tells result (One (told self.now.book.now).eqs (term_in self.now.store.now p.0) (term_in self.now.store.now q.0)) }
    {
        // Stays a loop: both places go down at once, and it is left in two ways.
        loop {
            if self.equated(p, q) {
                return true;
            }
            let Some(k) = only_difference(self.store, p, q) else {
                return false;
            };
            p = self.store.part(p, k);
            q = self.store.part(q, k);
        }
    }

    // Puts the parts of the uppermost root's term in its place.
    fn expand(&mut self)
        requires root { (Inside self.old.store.now self.old.roots.now) × (0 < self.old.roots.now.top) }
        requires has_roots { HasRoots self.old.roots.now.cells.now
            (self.old.roots.now.top - 1 + count (inner (held self.old.store.now self.old.roots.now (self.old.roots.now.top - 1)))) }
        ensures only { OnlyRoots self.old self.new }
        ensures expanded { Expanded self.old.store.now self.old.roots.now self.new.roots.now }
    {
        let top = self.roots.top - 1;
        let p = self.roots.place(top);
        self.roots.truncate(top);
        if let Node::Sign(_, n) = self.store.view(p) {
            // there are cells for them
            self.store.push_parts(self.roots, p, n).unwrap();
        }
    }

    // Whether one step leads from the uppermost root's term to itself: whether an equation leads from one of its parts to itself. Its
    // root is taken away.
    fn leads_to_itself(&mut self) -> bool
        requires { Walkable self.old.book.now self.old.store.now self.old.roots.now }
        ensures only { OnlyRoots self.old self.new }
        ensures walked { Walked self.old.book.now self.old.store.now self.old.roots.now self.new.roots.now result }
    {
        let base = self.roots.top - 1;
        // Stays a loop over the roots: they are the stack of the parts that are still to be looked at.
        while self.roots.top > base {
            let top = self.roots.top - 1;
            let p = self.roots.place(top);
            if self.equated(p, p) {
                self.roots.truncate(base);
                return true;
            }
            self.expand();
        }
        false // no part is led to itself
    }

    // Whether one step leads from the first of two roots to the second, which is the only root then.
    pub fn step(&mut self) -> bool
        requires { TwoTerms self.old.book.now self.old.store.now self.old.roots.now }
        ensures only { OnlyRoots self.old self.new }
        ensures told { StepTold self.old.book.now self.old.store.now self.old.roots.now self.new.roots.now result }
    {
        let p = self.roots.place(0);
        let q = self.roots.place(1);
        if self.store.same(p, q) {
            return self.leads_to_itself();
        }
        let found = self.leads_to_other(p, q);
        self.roots.stack(0, q);
        found
    }
}
