// Turns of the machine that brings terms to normal form.
// Stays in the contracts that a turn can be taken: it relates a book, the work words and a focus, and each turn changes all but the book.
// Stays with `book` beside `Work`: `Ready` says more than a `Reducer` keeps, and that would have to be shown honest after each write.
// Stays in the contracts that there is space for a turn: it is so only after it was seen to, and the turn uses it up.
ghost use Rattle.std.specs.Prelude.{◌≡◌, ◌≢◌, ◌+◌, ◌-◌, ◌*◌, ◌<◌, ◌≤◌, List, length, None, slice_index_or};
ghost use Rattle.rewriting.specs.Rules.{Eq, Done};
ghost use Rattle.rewriting.specs.Machine.{Still};
ghost use Rattle.rewriting.specs.Terms.{Term, sign};
ghost use Rattle.store.specs.Stores.{term_in, arity_in, part_in, parts_in};
ghost use Rattle.store.specs.Transfers.{RowOf};
ghost use Rattle.store.specs.Stacks.{root_in};
ghost use Rattle.store.specs.Roots.{HasRoots};
ghost use Rattle.books.specs.Books.{told};
ghost use Rattle.engine.specs.declared.types.Focus.TheVariants.{Eval, Back};
ghost use Rattle.engine.specs.Rewriting.{Rewritable, Opening};
ghost use Rattle.engine.specs.Running.{Honest};
ghost use Rattle.engine.specs.Turning.{KnownNormal, Advanced, Applied, OthersPushed, PartsGathered, BegunAt, TurnsFrom, TurnsOrStill};
ghost use Rattle.engine.specs.Turning.{CanTurn, TopFrame, SpaceForTurn};

use crate::instance::{row_instance, row_parts};
use crate::rules::{find_rule, opening, rewrite};
use crate::types::{Bindings, Focus, Frame};
use crate::work::Work;
use books::Book;
use std::array;
use store::{Node, Place, Roots, Store};

// The place of the normal form of the term at p, if it is known.
fn known(store: &Store, p: Place) -> Option<Place>
    requires { p.0 < store.now.count }
    ensures { (rs : List Eq) → Honest rs store.now → KnownNormal rs store.now p result }
{
    if store.is_normal(p) {
        return Some(p);
    }
    store.note(p)
}

// What the term at p comes to at once: its normal form if that is known, or what the lowest-numbered rule that can be used at its top
// makes of it.
fn advance(book: &Book, store: &mut Store, p: Place) -> Option<Focus>
    requires rewritable { Rewritable book.now store.old p }
    requires slots { store.old.count + 32 ≤ store.old.limit }
    requires honest { Honest (told book.now).rules store.old }
    ensures { Advanced (told book.now).rules store.old p store.new result }
{
    if let Some(q) = known(store, p) {
        return Some(Focus::Back(q));
    }
    let q = rewrite(book, store, p)?;
    Some(Focus::Eval(q))
}

// The same for a term that is a normal form if no rule can be used at its top.
fn apply(book: &Book, store: &mut Store, p: Place) -> Focus
    requires rewritable { Rewritable book.now store.old p }
    requires slots { store.old.count + 32 ≤ store.old.limit }
    requires honest { Honest (told book.now).rules store.old }
    requires done { Still (told book.now).rules (term_in store.old p.0) →
        Done (told book.now).rules (term_in store.old p.0) }
    ensures { Applied (told book.now).rules store.old p store.new result }
{
    if let Some(focus) = advance(book, store, p) {
        return focus;
    }
    store.set_normal(p);
    Focus::Back(p)
}

// The parts of the sign at a place but the first are n more roots.
fn push_others(store: &Store, roots: &mut Roots, p: Place, n: usize)
    requires parts { (p.0 < store.now.count) × (arity_in store.now p.0 ≡ n + 1) }
    requires has_roots { HasRoots roots.old.cells.now (roots.old.top + n) }
    ensures { OthersPushed (λ k. part_in store.now p.0 k) roots.old n roots.new }
{
    // Stays a loop over numbers: the store gives the parts of a sign by their numbers.
    for k in 0..n {
        roots.stack(roots.top, store.part(p, k + 1));
    }
}

// The places are so many more roots.
fn push_places(roots: &mut Roots, places: &[Place])
    requires { HasRoots roots.old.cells.now (roots.old.top + length places.now) }
    ensures { OthersPushed (λ k. (slice_index_or places.now (k - 1) (record { 0 = 0 })).0) roots.old (length places.now) roots.new }
{
    for &p in places {
        roots.stack(roots.top, p);
    }
}

// The place of a frame's part k: one of n roots from one on, or v.
// Stays beside `gather` of the store: tried one helper that takes a closure; what `from_fn` asks of it did not close.
fn frame_part(roots: &Roots, from: usize, n: usize, v: Place, k: usize) -> Place
    requires { (n ≤ 3) × (HasRoots roots.now.cells.now (from + n)) }
    ensures other { k < n → result.0 ≡ root_in roots.now (from + k) }
    ensures last { k ≡ n → result ≡ v }
{
    if k < n { roots.place(from + k) } else { v }
}

// The places of a frame's parts: n roots from one on, and v.
// Stays an array, of which the first n + 1 count: a slot has cells for four parts.
fn gather_parts(roots: &Roots, from: usize, n: usize, v: Place) -> [Place; 4]
    requires { (n ≤ 3) × (HasRoots roots.now.cells.now (from + n)) }
    ensures { PartsGathered roots.now from n v result }
{
    array::from_fn(|k| frame_part(roots, from, n, v, k))
}

impl Work<'_> {
    // What `opening` says of a right side, if a frame is left after the one for its sign. Where none is left, the sign is made: its normal
    // form may be known, and then it wants no frame at all.
    fn opening_with_space(&self, book: &Book, right: &[u32]) -> Option<(u32, usize)>
        requires { (t : Term) × RowOf (told book.now).parts right.now t }
        ensures opening { Opening (told book.now).parts right.now result }
        ensures space { result ≢ None → 4 * (self.now.frames.depth + 2) ≤ length self.now.frames.words.now }
    {
        if (self.frames.words.len() / 4).saturating_sub(self.frames.depth) < 2 {
            return None;
        }
        opening(book, right)
    }

    // To the first of n + 1 parts of the sign f, which stand at the places. There is no slot for the sign over them yet. A frame is left for
    // work at the parts.
    fn begin(&mut self, f: u32, n: usize, places: [Place; 4]) -> Focus
        requires few { n ≤ 3 }
        requires roots { HasRoots self.old.roots.cells.now (self.old.roots.top + 3) }
        requires frames { 4 * (self.old.frames.depth + 2) ≤ length self.old.frames.words.now }
        ensures { BegunAt self.old f n places self.new result }
    {
        push_places(&mut self.roots, &places[1..=n]);
        self.frames.push(f, n as u32, places[0]);
        Focus::Eval(places[0])
    }

    // To what the lowest-numbered rule that can be used at the top of the term at p makes of it, if there is one. If no rule could be used
    // on that in turn and there are frames enough, it is not made: only its parts are, and work goes on at the first of them.
    fn by_rule(&mut self, book: &Book, p: Place) -> Option<Focus>
        requires can_turn { CanTurn book.now self.old (Eval p) }
        requires space { SpaceForTurn self.old }
        ensures { TurnsOrStill book.now self.old p self.new result }
    {
        let mut bindings = Bindings::new();
        let i = find_rule(book, &self.store, p, &mut bindings)?;
        let right = book.rule(i).right;
        let Some((g, n)) = self.opening_with_space(book, right) else {
            let q = row_instance(book.parts(), right, &bindings, &mut self.store);
            return Some(Focus::Eval(q));
        };
        let places = row_parts(book.parts(), right, n, &bindings, &mut self.store);
        Some(self.begin(g, n - 1, places))
    }

    // To the first of n + 1 parts.
    fn go_in(&mut self, p: Place, f: u32, n: usize) -> Focus
        requires inside { p.0 < self.old.store.count }
        requires arity { (n ≤ 3) × (arity_in self.old.store p.0 ≡ n + 1) }
        requires sign { term_in self.old.store p.0 ≡ sign f (parts_in self.old.store p.0 (n + 1)) }
        requires space { SpaceForTurn self.old }
        ensures { (k : _) → TurnsFrom k self.old (Eval p) self.new result }
    {
        let first = self.store.part(p, 0);
        push_others(&self.store, &mut self.roots, p, n);
        self.frames.push(f, n as u32, first);
        Focus::Eval(first)
    }

    // To the next part, with v in its place.
    fn go_on(&mut self, frame: Frame, v: Place) -> Focus
        requires { (TopFrame self.old frame) × (frame.done < frame.others) }
        ensures { (k : _) → TurnsFrom k self.old (Back v) self.new result }
    {
        let at = self.roots.top - frame.others as usize + frame.done as usize;
        let next = self.roots.place(at);
        self.roots.set(at, v);
        self.frames.go_on(next);
        Focus::Eval(next)
    }

    // Back to the sign, v being the last of its parts.
    fn go_out(&mut self, book: &Book, frame: Frame, v: Place) -> Focus
        requires can_turn { CanTurn book.now self.old (Back v) }
        requires slots { self.old.store.count + 33 ≤ self.old.store.limit }
        requires frame { (TopFrame self.old frame) × (frame.done ≡ frame.others) }
        ensures { TurnsFrom book.now self.old (Back v) self.new result }
    {
        let others = frame.others as usize;
        let from = self.roots.top - others;
        let parts = gather_parts(&self.roots, from, others, v);
        let p = self.store.share_sign(frame.sign, parts, others + 1);
        self.roots.truncate(from);
        self.frames.pop();
        apply(book, &mut self.store, p)
    }

    // A normal form v goes to the top frame.
    fn go_back(&mut self, book: &Book, v: Place) -> Focus
        requires can_turn { CanTurn book.now self.old (Back v) }
        requires slots { self.old.store.count + 33 ≤ self.old.store.limit }
        requires some { 0 < self.old.frames.depth }
        ensures { TurnsFrom book.now self.old (Back v) self.new result }
    {
        let frame = self.frames.top();
        if frame.done < frame.others {
            return self.go_on(frame, v);
        }
        self.go_out(book, frame, v)
    }

    // The same, and v is noted as the normal form of what the frame asked for.
    pub(crate) fn back(&mut self, book: &Book, v: Place) -> Focus
        requires can_turn { CanTurn book.now self.old (Back v) }
        requires slots { self.old.store.count + 33 ≤ self.old.store.limit }
        requires some { 0 < self.old.frames.depth }
        ensures { TurnsFrom book.now self.old (Back v) self.new result }
    {
        let asked = self.frames.asked();
        let focus = self.go_back(book, v);
        if let Some(p) = asked {
            self.store.set_note(p, v);
        }
        focus
    }

    // A turn at the sign f with n + 1 parts.
    fn enter(&mut self, book: &Book, p: Place, f: u32, n: usize) -> Focus
        requires can_turn { CanTurn book.now self.old (Eval p) }
        requires space { SpaceForTurn self.old }
        requires arity { (n ≤ 3) × (arity_in self.old.store p.0 ≡ n + 1) }
        requires sign { term_in self.old.store p.0 ≡ sign f (parts_in self.old.store p.0 (n + 1)) }
        ensures { TurnsFrom book.now self.old (Eval p) self.new result }
    {
        if let Some(v) = known(&self.store, p) {
            return Focus::Back(v);
        }
        if let Some(focus) = self.by_rule(book, p) {
            return focus;
        }
        self.go_in(p, f, n)
    }

    // A turn at the term at p, which is to be brought to normal form.
    pub(crate) fn eval(&mut self, book: &Book, p: Place) -> Focus
        requires can_turn { CanTurn book.now self.old (Eval p) }
        requires space { SpaceForTurn self.old }
        ensures { TurnsFrom book.now self.old (Eval p) self.new result }
    {
        match self.store.view(p) {
            Node::Sign(f, n) if n > 0 => self.enter(book, p, f, n - 1),
            _ => apply(book, &mut self.store, p),
        }
    }
}
