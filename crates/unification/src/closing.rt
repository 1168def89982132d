// Closing classes: the parts of signs in one class are merged, until no class has two different signs or parts in different classes.
ghost use Rattle.std.specs.Prelude.{◌≡◌, ◌<◌, ◌≤◌};
ghost use Rattle.store.specs.Stores.{arity_in};
ghost use Rattle.unification.specs.Classes.{Labelled, Labelled-prop, Merged, Checked, CheckedAt, Saturated, ClosureOf, FirstDifference};

use crate::types::{Clash, Classes};
use store::{Node, Place, Store};

// The classes of a small store's places, while they are merged.
#[derive(Drop)]
struct Closing<'s, 'a> {
    store: &'s Store<'a>,
    classes: Classes,
    ghost few: { store.now.count ≤ 96 },
    ghost labelled: { Labelled store.now store.now.count classes } by { Labelled-prop store.now store.now.count classes },
}

impl Closing<'_, '_> {
    // Makes the classes of two places one. It is known by a sign, if there is one.
    fn merge(&mut self, p: Place, q: Place)
        requires { (p.0 < self.old.store.now.count) × (q.0 < self.old.store.now.count) }
        ensures store { self.new.store.now ≡ self.old.store.now }
        ensures merged { Merged self.old.store.now self.old.classes p.0 q.0 self.new.classes }
    {
        let a = self.classes.known_by(p);
        let b = self.classes.known_by(q);
        match self.store.view(a) {
            Node::Letter(_) => self.classes.relabel(a, b),
            Node::Sign(_, _) => self.classes.relabel(b, a),
        }
    }

    // The first of n parts at which the parts of two signs are in different classes.
    // Stays beside that of `ways`: each is one `find`, and what they compare differs.
    fn first_difference(&self, p: Place, q: Place, n: usize) -> Option<usize>
        requires first { (p.0 < self.now.store.now.count) × (arity_in self.now.store.now p.0 ≡ n) }
        requires second { (q.0 < self.now.store.now.count) × (arity_in self.now.store.now q.0 ≡ n) }
        ensures { FirstDifference self.now.store.now self.now.classes p.0 q.0 n result }
    {
        let class = |p, k| self.classes.known_by(self.store.part(p, k));
        (0..n).find(|&k| class(p, k) != class(q, k))
    }

    // Compares the sign at a place with the one that its class is known by: two parts that have to be in one class, if any.
    fn check_at(&self, p: Place) -> Result<Option<(Place, Place)>, Clash>
        requires { p.0 < self.now.store.now.count }
        ensures { CheckedAt self.now.store.now self.now.classes p.0 result }
    {
        let node = self.store.view(p);
        // Stays `let .. else`: what stands at a place is an enum with data, and no Option.
        let Node::Sign(_, n) = node else {
            return Ok(None);
        };
        let q = self.classes.known_by(p);
        if node != self.store.view(q) {
            return Err(Clash);
        }
        // Stays `let .. else`: tried as `map` of the two calls, of a helper and with `move`, and no proof sees what the closure makes.
        let Some(k) = self.first_difference(p, q, n) else {
            return Ok(None);
        };
        Ok(Some((self.store.part(p, k), self.store.part(q, k))))
    }

    // Two places that have to be in one class and are not, if the classes are not closed.
    fn check(&self) -> Result<Option<(Place, Place)>, Clash>
        ensures { Checked self.now.store.now self.now.classes result }
    {
        // Stays a loop over numbers: each is a place's, and a clash is handed on.
        for i in 0..self.store.count {
            if let Some(apart) = self.check_at(Place(i))? {
                return Ok(Some(apart));
            }
        }
        Ok(None)
    }

    // Merges classes until they are closed, unless signs clash.
    fn saturate(&mut self) -> Result<(), Clash>
        ensures { Saturated self.old.store.now self.old.classes self.new.classes result }
    {
        while let Some((p, q)) = self.check()? {
            self.merge(p, q);
        }
        Ok(())
    }
}

// The least closed classes with two places in one, unless signs clash.
pub fn close(store: &Store, p: Place, q: Place) -> Result<Classes, Clash>
    requires { (store.now.count ≤ 96) × ((p.0 < store.now.count) × (q.0 < store.now.count)) }
    ensures { ClosureOf store.now p q result }
{
    let mut closing = Closing {
        store,
        classes: Classes::new(),
    };
    closing.merge(p, q);
    closing.saturate()?;
    Ok(closing.classes)
}
