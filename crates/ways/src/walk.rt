// The terms of ways, read and followed from one to the next.
// Stays bools: each answers a question, and the roots beside it are only used on the way.
// Stays in the contracts that a way is under way: it is so only from where the way begins to where it ends.
ghost use Rattle.std.specs.Prelude.{◌≡◌, ◌+◌, ◌<◌, ◌≤◌, length, is_some};
ghost use Rattle.rewriting.specs.Answers.{Tells};
ghost use Rattle.rewriting.specs.Terms.{Term};
ghost use Rattle.store.specs.Stores.{Inside, held};
ghost use Rattle.store.specs.Making.{Stacked};
ghost use Rattle.store.specs.Transfers.{RowOf};
ghost use Rattle.books.specs.Books.{told, rule_in};
ghost use Rattle.books.specs.Rows.{SomeWays};
ghost use Rattle.ways.specs.Showing.{RoomFor, NextTold, Followed, WayTold, Shown};

use books::Book;
use books::words::{Letters, term_end};
use store::{Roots, Store};

// A book, ways for its rules, and a store and roots with room for the words of both.
#[derive(Drop)]
pub struct Walk<'w, 's, 'r> {
    pub book: &'w Book<'w>,
    pub ways: &'w [u32],
    pub store: &'w mut Store<'s>,
    pub roots: &'w mut Roots<'r>,
    pub ghost slots: { length book.now.words.now + length ways.now < store.now.room },
    pub ghost cells: { length book.now.words.now + length ways.now + 2 ≤ length roots.now.cells.now },
}

impl Walk<'_, '_, '_> {
    ghost use Rattle.ways.specs.Walks.{Kept, UnderWay};

    // Reads the term whose row the words are: one more root holds it.
    fn read(&mut self, words: &[u32])
        requires inside { Inside self.old.store.now self.old.roots.now }
        requires row { (t : Term) × RowOf (told self.old.book.now).parts words.now t }
        requires room { RoomFor self.old.store.now self.old.roots.now (length words.now) }
        ensures kept { Kept self.old self.new }
        ensures stacked { (t : Term) → RowOf (told self.old.book.now).parts words.now t →
            Stacked self.old.store.now self.old.roots.now self.old.roots.now.top t self.new.store.now self.new.roots.now }
    {
        // there is room for it
        self.store
            .read_row(self.roots, self.book.parts(), words)
            .unwrap();
    }

    // Whether the only root's term is the one whose row the words are.
    fn is_held(&mut self, words: &[u32]) -> bool
        requires under_way { UnderWay self.old }
        requires row { (t : Term) × RowOf (told self.old.book.now).parts words.now t }
        requires short { length words.now ≤ length self.old.book.now.words.now }
        ensures kept { Kept self.old self.new }
        ensures told { (t : Term) → RowOf (told self.old.book.now).parts words.now t →
            Tells result (held self.old.store.now self.old.roots.now 0 ≡ t) }
    {
        self.read(words);
        self.store.same(self.roots.place(0), self.roots.place(1))
    }

    // Goes on from the only root's term to the term at a place of the ways, if one step leads there, and says where it ends.
    fn next(&mut self, at: usize) -> Option<usize>
        requires { UnderWay self.old }
        ensures ready { UnderWay self.new }
        ensures kept { Kept self.old self.new }
        ensures told { NextTold self.old.book.now self.old.ways.now at (held self.old.store.now self.old.roots.now 0)
            (held self.new.store.now self.new.roots.now 0) result }
    {
        let end = term_end(Letters::Any, self.book.parts(), self.ways, at)?;
        let term = &self.ways[at..end];
        self.read(term);
        self.step().then_some(end)
    }

    // Goes on from the only root's term through the terms at a place of the ways, as many as are said, and says where they end.
    fn follow(&mut self, from: usize, count: usize) -> Option<usize>
        requires { UnderWay self.old }
        ensures ready { UnderWay self.new }
        ensures kept { Kept self.old self.new }
        ensures told { Followed self.old.book.now self.old.ways.now from count (held self.old.store.now self.old.roots.now 0)
            (held self.new.store.now self.new.roots.now 0) result }
    {
        let mut at = from;
        // Stays a loop: tried `try_fold`: it tells which calls were made, and of the walk that its closure had nothing is known after it.
        for _ in 0..count {
            at = self.next(at)?;
        }
        Some(at)
    }

    // Begins the way of rule i: its left side is the only root's term.
    fn begin(&mut self, i: usize)
        requires { i < length (told self.old.book.now).rules }
        ensures ready { UnderWay self.new }
        ensures kept { Kept self.old self.new }
        ensures term { held self.new.store.now self.new.roots.now 0 ≡ (rule_in self.old.book.now i).left }
    {
        self.roots.truncate(0);
        self.read(self.book.rule(i).left);
    }

    // Whether the terms at a place of the ways, as many as are said, lead from the left side of rule i to its right side: where they end.
    fn way(&mut self, i: usize, from: usize, count: usize) -> Option<usize>
        requires { i < length (told self.old.book.now).rules }
        ensures kept { Kept self.old self.new }
        ensures told { WayTold self.old.book.now self.old.ways.now from count (rule_in self.old.book.now i) result }
    {
        self.begin(i);
        let end = self.follow(from, count)?;
        self.is_held(self.book.rule(i).right).then_some(end)
    }

    // Whether each rule is shown by its way: where the last one ends.
    fn each(&mut self) -> Option<usize>
        requires { SomeWays (told self.old.book.now).parts (length (told self.old.book.now).rules) self.old.ways.now }
        ensures kept { Kept self.old self.new }
        ensures told { Tells (is_some result) (Shown self.old.book.now self.old.ways.now) }
    {
        let mut at = 0;
        // Stays a loop: tried `try_fold`, with the same goal left as in `follow`: that the walk is kept.
        for i in 0..self.book.layout.rules() {
            let count = self.ways[at] as usize;
            at = self.way(i, at + 1, count)?;
        }
        Some(at)
    }

    // The same, and no root is left.
    pub fn shows(&mut self) -> bool
        requires { SomeWays (told self.old.book.now).parts (length (told self.old.book.now).rules) self.old.ways.now }
        ensures none { self.new.roots.now.top ≡ 0 }
        ensures kept { Kept self.old self.new }
        ensures told { Tells result (Shown self.old.book.now self.old.ways.now) }
    {
        let end = self.each();
        self.roots.truncate(0);
        end.is_some()
    }
}
