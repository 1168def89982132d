// Rows into the store and out of it, symbol by symbol.
// Stays in the contracts that words are the row of a term over a signature: it relates two slices, which are lent.
ghost use Rattle.std.specs.Prelude.{◌≡◌, ◌-◌, ◌<◌, ◌≤◌, length};
ghost use Rattle.rewriting.specs.Terms.{Term};
ghost use Rattle.books.specs.Layouts.{FewParts};
ghost use Rattle.store.specs.Roots.{HasRoots};
ghost use Rattle.store.specs.Stores.{term_in, arity_in, Inside};
ghost use Rattle.store.specs.Making.{Made};
ghost use Rattle.store.specs.Transfers.{RowOf, takes, symbol_term, Readable, Read, PartsOrFull, SymbolOrShort, RootsBelow, WrittenOrShort};

use crate::types::{Full, Node, Place, Roots, Short, Store};
use books::words::{Symbol, symbol_at};

impl Store<'_> {
    // Makes the term of a symbol whose parts stand on the roots, the first uppermost.
    fn read_symbol(&mut self, roots: &mut Roots, parts: &[u32], symbol: Symbol) -> Result<(), Full>
        requires { (Inside self.old roots.old) × (Readable parts.now roots.old symbol) }
        ensures { Made self.old roots.old (roots.old.top - takes parts.now symbol)
            (symbol_term self.old roots.old (takes parts.now symbol) symbol)
            self.new roots.new result }
    {
        match symbol {
            Symbol::Letter(x) => self.make_letter(roots, x),
            Symbol::Sign(f) => self.make_sign_down(roots, f, parts[f as usize] as usize),
        }
    }

    // Reads a row over a signature, from its end to its start: one more root holds its term.
    pub fn read_row(&mut self, roots: &mut Roots, parts: &[u32], words: &[u32]) -> Result<(), Full>
        requires inside { (Inside self.old roots.old) × (FewParts parts.now) }
        requires row_of { (t : Term) × RowOf parts.now words.now t }
        ensures { (t : Term) → RowOf parts.now words.now t →
            Read self.old roots.old t self.new roots.new result }
    {
        let base = roots.top;
        for pair in words.rchunks_exact(2) {
            let symbol = symbol_at(pair, 0).unwrap();
            // Stays without `?`: the roots are cut back before the refusal is handed on.
            if let Err(full) = self.read_symbol(roots, parts, symbol) {
                roots.truncate(base);
                return Err(full);
            }
        }
        Ok(())
    }

    // Puts the parts of the sign at a place on the roots, so that the first is uppermost.
    pub fn push_parts(&self, roots: &mut Roots, p: Place, n: usize) -> Result<(), Full>
        requires parts { (p.0 < self.now.count) × (n ≡ arity_in self.now p.0) }
        requires has_roots { HasRoots roots.old.cells.now roots.old.top }
        ensures { PartsOrFull self.now roots.old p.0 n roots.new result }
    {
        // Stays a loop over numbers: a part is read by its number.
        for k in (0..n).rev() {
            roots.push(self.part(p, k))?;
        }
        Ok(())
    }

    // Writes the symbol of the uppermost root, and puts its parts in its place.
    // Stays words with a place: the symbols before it are kept, and how many words there are is told.
    fn write_symbol(&self, roots: &mut Roots, out: &mut [u32], at: usize) -> Result<(), Short>
        requires { (Inside self.now roots.old) × ((0 < roots.old.top) × (at ≤ length out.old)) }
        ensures below { RootsBelow (roots.old.top - 1) roots.old roots.new }
        ensures symbol { SymbolOrShort self.now roots.old out.old at
            roots.new out.new result }
    {
        if out.len() - at < 2 {
            return Err(Short::NoWord);
        }
        let top = roots.top - 1;
        let p = roots.place(top);
        roots.truncate(top);
        match self.view(p) {
            Node::Letter(x) => {
                out[at..at + 2].copy_from_slice(&Symbol::Letter(x).words());
                Ok(())
            }
            Node::Sign(f, n) => {
                self.push_parts(roots, p, n)?;
                out[at..at + 2].copy_from_slice(&Symbol::Sign(f).words());
                Ok(())
            }
        }
    }

    // Writes the row of the term at a place, and says how many words that is. The cells above the roots are used on the way. If it is
    // refused, a beginning of the row may stand there.
    pub fn write_row(&self, roots: &mut Roots, p: Place, out: &mut [u32]) -> Result<usize, Short>
        requires { (Inside self.now roots.old) × (p.0 < self.now.count) }
        ensures top { roots.new.top ≡ roots.old.top }
        ensures below { RootsBelow roots.old.top roots.old roots.new }
        ensures written { WrittenOrShort roots.old (term_in self.now p.0) out.old
            out.new result }
    {
        let base = roots.top;
        roots.push(p)?;
        let mut at = 0;
        // Stays a while: the roots above `base` are a stack, and it ends with them.
        while roots.top > base {
            // Stays without `?`: the roots are cut back before the refusal is handed on.
            if let Err(short) = self.write_symbol(roots, out, at) {
                roots.truncate(base);
                return Err(short);
            }
            at += 2;
        }
        Ok(at)
    }
}
