// Space for the next turn of the machine: slots, cells for roots and words for a frame.
ghost use Rattle.std.specs.Prelude.{◌≡◌, ℕ, ◌+◌, ◌<◌};
ghost use Rattle.store.specs.Stores.{Inside};
ghost use Rattle.store.specs.Roots.{HasRoots};
ghost use Rattle.engine.specs.Running.{Running, focus_place};
ghost use Rattle.engine.specs.Spacing.{Collected, focus_at, SpaceOrHalted};

use crate::types::{Focus, NoRoom};
use crate::work::Work;
use store::Place;

impl Focus {
    fn place(self) -> Place
        ensures { result.0 ≡ focus_place self }
    {
        let (Focus::Eval(p) | Focus::Back(p)) = self;
        p
    }

    // The same at another place.
    fn at(self, p: Place) -> Focus
        ensures { result ≡ focus_at self p }
    {
        match self {
            Focus::Eval(_) => Focus::Eval(p),
            Focus::Back(_) => Focus::Back(p),
        }
    }
}

impl Work<'_> {
    // Makes room for 33 slots, with the term at p kept: the place where it is then. What frames asked for is forgotten.
    fn collect(&mut self, p: Place) -> Result<Place, NoRoom>
        requires inside { (Inside self.old.store self.old.roots) × (p.0 < self.old.store.count) }
        requires has_roots { HasRoots self.old.roots.cells.now (self.old.roots.top + 1) }
        ensures { Collected self.old p self.new result }
    {
        let top = self.roots.top;
        self.frames.forget();
        self.roots.stack(top, p);
        // Stays without `?`: the root is taken away before the refusal is handed on.
        if let Err(full) = self.store.reserve(&mut self.roots, 33) {
            self.roots.truncate(top);
            return Err(NoRoom::from(full));
        }
        let q = self.roots.place(top);
        self.roots.truncate(top);
        Ok(q)
    }

    // Sees to it that there is space for a turn.
    pub(crate) fn with_space(&mut self, focus: Focus) -> Result<Focus, NoRoom>
        requires { (Inside self.old.store self.old.roots) × (focus_place focus < self.old.store.count) }
        ensures { (rs : _) (low : ℕ) → Running rs low self.old focus → SpaceOrHalted rs low self.old focus self.new result }
    {
        if !self.frames.has_space() {
            return Err(NoRoom);
        }
        if self.roots.room() - self.roots.top < 4 {
            return Err(NoRoom);
        }
        if 33 <= self.store.limit - self.store.count {
            return Ok(focus);
        }
        let p = self.collect(focus.place())?;
        Ok(focus.at(p))
    }
}
