// Normal forms: the machine runs until the term is brought to its normal form, or space is wanting.
ghost use Rattle.std.specs.Prelude.{ℕ};
ghost use Rattle.engine.specs.Turning.{Ready, CanTurn};
ghost use Rattle.engine.specs.Spacing.{Stepped};
ghost use Rattle.engine.specs.Normal.{Normalized, Startable};
ghost use Rattle.engine.specs.Reducers.{Lent};

use crate::reducer::Reducer;
use crate::types::{Focus, NoRoom, Progress};
use crate::work::Work;
use books::Book;
use std::ops::ControlFlow;

impl Work<'_> {
    // One turn, if there is space for it: to the next focus, or to the end with a normal form.
    fn step(&mut self, book: &Book, focus: Focus) -> Progress
        requires { CanTurn book.now self.old focus }
        ensures { (low : ℕ) → Ready book.now low self.old focus → Stepped book.now low self.old focus self.new result }
    {
        match self.with_space(focus)? {
            Focus::Eval(p) => Ok(ControlFlow::Continue(self.eval(book, p))),
            Focus::Back(v) if self.frames.depth == 0 => Ok(ControlFlow::Break(v)),
            Focus::Back(v) => Ok(ControlFlow::Continue(self.back(book, v))),
        }
    }
}

impl Reducer<'_, '_, '_> {
    // Puts the normal form of the uppermost root's term in its place; or takes this root away, for want of space. Either is come to by
    // moves of the machine that is the model, and each move by a rule is by the lowest-numbered one that can be used there.
    pub fn normalize(&mut self) -> Result<(), NoRoom>
        requires { Startable self.old.rules.now.book self.old.work.now }
        ensures lent { Lent self.old self.new }
        ensures normal { Normalized self.old.rules.now.book self.old.work.now self.new.work.now result }
    {
        let book = &self.rules.book;
        let low = self.work.roots.top - 1;
        let mut focus = Focus::Eval(self.work.roots.place(low));
        self.work.roots.truncate(low);
        self.work.frames.clear();
        loop {
            match self.work.step(book, focus) {
                Ok(ControlFlow::Continue(next)) => focus = next,
                Ok(ControlFlow::Break(v)) => {
                    self.work.roots.stack(low, v);
                    return Ok(());
                }
                // Stays without `?`: the root is taken away before the refusal is handed on.
                Err(e) => {
                    self.work.roots.truncate(low);
                    return Err(e);
                }
            }
        }
    }
}
