// Two terms compared by their normal forms.
// Stays in the contracts how many roots there are: they are two only before a comparison, and none only after it.
// Stays in the contracts how ample the work words are: it is said for each number that suits, and not for one.
ghost use Rattle.std.specs.Prelude.{ℕ};
ghost use Rattle.store.specs.Roots.{HasRoots};
ghost use Rattle.engine.specs.Normal.{root_term};
ghost use Rattle.engine.specs.Meeting.{Ample, Compares, Exchanged, TwoRoots, BothNormal, RootsCompared};
ghost use Rattle.engine.specs.Reducers.{Lent, LeftIdle};

use crate::reducer::Reducer;
use crate::types::NoRoom;
use store::Roots;

// Exchanges the two lowest roots.
fn exchange(roots: &mut Roots)
    requires { HasRoots roots.old.cells.now 2 }
    ensures { Exchanged roots.old roots.new }
{
    let first = roots.place(0);
    let second = roots.place(1);
    roots.set(0, second);
    roots.set(1, first);
}

impl Reducer<'_, '_, '_> {
    // Brings the terms of both roots to normal form, and exchanges them.
    fn both_normal(&mut self) -> Result<(), NoRoom>
        requires { TwoRoots self.old.rules.now.book self.old.work.now }
        ensures lent { Lent self.old self.new }
        ensures normal { BothNormal self.old.rules.now.book self.old.work.now self.new.work.now result }
    {
        self.normalize()?;
        exchange(&mut self.work.roots);
        self.normalize()
    }

    // Compares the terms of the two roots. One place has one term, so then no step is needed.
    fn compare_roots(&mut self) -> Result<bool, NoRoom>
        requires { TwoRoots self.old.rules.now.book self.old.work.now }
        ensures lent { Lent self.old self.new }
        ensures compared { RootsCompared self.old.rules.now.book self.old.work.now self.new.work.now result }
    {
        let work = &*self.work;
        if work.store.same(work.roots.place(0), work.roots.place(1)) {
            return Ok(true);
        }
        self.both_normal()?;
        let work = &*self.work;
        Ok(work.store.same(work.roots.place(0), work.roots.place(1)))
    }

    // Whether the terms of the two roots have one normal form; takes both roots away.
    pub fn compare(&mut self) -> Result<bool, NoRoom>
        requires { TwoRoots self.old.rules.now.book self.old.work.now }
        ensures idle { LeftIdle self.old self.new }
        ensures result { (n : ℕ) → Ample n self.old.work.now → Compares self.old.rules.now.book n
            (root_term self.old.work.now 0) (root_term self.old.work.now 1) result }
    {
        let found = self.compare_roots();
        self.work.roots.truncate(0);
        found
    }
}
