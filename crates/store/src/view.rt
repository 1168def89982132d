// What stands at a place: the node, its parts, the flag that says normal, and the note.
// Stays in the contracts that a place is inside: it relates the place to a store, which grows and is collected.
ghost use Rattle.std.specs.Prelude.{◌≡◌, ◌+◌, ◌<◌, true, false, ◌≢◌};
ghost use Rattle.store.specs.Cells.{cell};
ghost use Rattle.store.specs.Stores.{term_in, arity_in, part_in, flag_in, note_in, note_of, Shows, FlagSet, NoteSet};

use crate::numbers::WORD;
use crate::slots::{FLAG, HEAD, NOTE, arity, get, kind, part, put, symbol};
use crate::types::{Node, Place, Store};

impl Store<'_> {
    fn cell(&self, p: Place, k: usize) -> usize
        requires { (p.0 < self.now.count) × (k < 8) }
        ensures { result ≡ cell self.now.words.now p.0 k }
    {
        get(self.words, p.0, k)
    }

    // The letter or sign at a place.
    pub fn view(&self, p: Place) -> Node
        requires { p.0 < self.now.count }
        ensures { Shows self.now p.0 result }
    {
        let kind = kind(self.cell(p, HEAD));
        let symbol = symbol(kind);
        if kind < WORD {
            return Node::Letter(symbol);
        }
        Node::Sign(symbol, arity(kind))
    }

    // Part k of the sign at a place.
    pub fn part(&self, p: Place, k: usize) -> Place
        requires { (p.0 < self.now.count) × (k < arity_in self.now p.0) }
        ensures is { result.0 ≡ part_in self.now p.0 k }
        ensures below { result.0 < p.0 }
    {
        Place(part(self.words, p.0, k))
    }

    // Whether two places have one term: they have only if they are one place.
    pub fn same(&self, p: Place, q: Place) -> bool
        requires { (p.0 < self.now.count) × (q.0 < self.now.count) }
        ensures yes { result ≡ true → term_in self.now p.0 ≡ term_in self.now q.0 }
        ensures no { result ≡ false → term_in self.now p.0 ≢ term_in self.now q.0 }
    {
        p == q
    }

    // Whether the term at a place is known to be normal.
    #[tactic(auto, unfolding(crate::specs::Slots::flag_of))]
    pub fn is_normal(&self, p: Place) -> bool
        requires { p.0 < self.now.count }
        ensures { result ≡ flag_in self.now p.0 }
    {
        FLAG <= self.cell(p, HEAD)
    }

    pub fn set_normal(&mut self, p: Place)
        requires { p.0 < self.old.count }
        ensures { FlagSet self.old p.0 self.new }
    {
        let head = kind(self.cell(p, HEAD)) + FLAG;
        put(self.words, p.0, HEAD, head);
    }

    // A place that was noted for this one. A collection forgets it.
    pub fn note(&self, p: Place) -> Option<Place>
        requires { p.0 < self.now.count }
        ensures { note_of result ≡ note_in self.now p.0 }
    {
        self.cell(p, NOTE).checked_sub(1).map(Place)
    }

    pub fn set_note(&mut self, p: Place, q: Place)
        requires { (p.0 < self.old.count) × (q.0 < self.old.count) }
        ensures { NoteSet self.old p.0 (q.0 + 1) self.new }
    {
        put(self.words, p.0, NOTE, q.0 + 1);
    }
}
