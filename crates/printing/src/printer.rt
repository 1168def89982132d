// Terms, equations, rules and books in the readable form.
// Stays loops over numbers: a book gives its equations and rules by number, and a way says how many terms it has.
ghost use Rattle.std.specs.Prelude.{◌≡◌, ◌≤◌, [], IfOk, string_bytes};

use books::words::{Symbol, symbol_at};
use notation::Book;
use std::alloc::{AllocError, Global};
use std::fmt::Write;

// A book, and what is written of it so far.
#[derive(Drop)]
pub(crate) struct Printer<'a> {
    heap: Global,
    book: &'a Book,
    pub(crate) out: String,
}

impl<'a> Printer<'a> {
    pub(crate) fn new(heap: Global, book: &'a Book) -> Printer<'a>
        ensures { string_bytes result.out ≡ [] }
    {
        Printer {
            heap,
            book,
            out: String::new(heap),
        }
    }

    // Adds the name of a letter or a sign, and tells how many parts follow. What has no name is written by its number, after `?`.
    fn add_symbol(&mut self, symbol: Symbol) -> Result<u32, AllocError> {
        let signature = &self.book.signature;
        let (name, number, parts) = match symbol {
            Symbol::Letter(x) => (signature.letters.get(x as usize), x, 0),
            Symbol::Sign(f) => match signature.signs.get(f as usize) {
                Some(sign) => (Some(&sign.name), f, sign.parts),
                None => (None, f, 0),
            },
        };
        match name {
            Some(name) => write!(self.out, "{name}")?,
            None => write!(self.out, "?{number}")?,
        }
        Ok(parts)
    }

    // After a whole term: closes the signs that end with it; whether another part comes then.
    // Stays a bool in the Result: it answers whether another part comes.
    fn add_end(&mut self, open: &mut Vec<u32>) -> Result<bool, AllocError> {
        while let Some(left) = open.pop() {
            if left > 0 {
                self.out.push_str(", ")?;
                open.push(left - 1)?;
                return Ok(true);
            }
            self.out.push(')')?;
        }
        Ok(false)
    }

    // Adds the term that stands at a place of a row, and tells the place after it.
    fn add_term(&mut self, words: &[u32], at: usize) -> Result<usize, AllocError>
        ensures { IfOk result (λ end. at ≤ end) }
    {
        let mut open = Vec::new(self.heap);
        let mut end = at;
        // Stays a loop over places: the place after the term is what is told.
        while let Some(symbol) = symbol_at(words, end) {
            end += 2;
            let parts = self.add_symbol(symbol)?;
            if parts > 0 {
                self.out.push('(')?;
                open.push(parts - 1)?;
            } else if !self.add_end(&mut open)? {
                break;
            }
        }
        Ok(end)
    }

    // Adds the two sides of the equation or rule with this number, the rules counted after the equations, with a mark between them.
    // Stays with the mark as a parameter: it is text that is written.
    pub(crate) fn add_sides(&mut self, number: usize, mark: &str) -> Result<(), AllocError> {
        let words = self.book.words.as_slice();
        let middle = self.add_term(words, self.book.layout.start(number.saturating_mul(2)))?;
        self.out.push_str(mark)?;
        self.add_term(words, middle)?;
        Ok(())
    }

    // Adds the sections of signs and letters; ranks only where these do not rise in order from 0.
    fn add_names(&mut self) -> Result<(), AllocError> {
        let signature = &self.book.signature;
        let ranked = !signature.ranks_rise();
        write!(self.out, "signs")?;
        for sign in &signature.signs {
            write!(self.out, " {}/{}", sign.name, sign.parts)?;
            if ranked {
                write!(self.out, " rank {}", sign.rank)?;
            }
        }
        write!(self.out, "\nletters")?;
        for letter in &signature.letters {
            write!(self.out, " {letter}")?;
        }
        Ok(())
    }

    fn add_equations(&mut self) -> Result<(), AllocError> {
        write!(self.out, "\nequations")?;
        for number in 0..self.book.layout.equations() {
            write!(self.out, "\n  ")?;
            self.add_sides(number, " = ")?;
        }
        Ok(())
    }

    // Adds the way that stands at a place of the ways' row, and tells the place after it.
    fn add_way(&mut self, at: usize) -> Result<usize, AllocError> {
        let ways = self.book.ways.as_slice();
        let Some(count) = ways.get(at) else {
            return Ok(at);
        };
        let mut place = at + 1;
        for _ in 0..*count {
            write!(self.out, "\n    = ")?;
            place = self.add_term(ways, place)?;
        }
        Ok(place)
    }

    // Adds the rules, each with its way.
    fn add_rules(&mut self) -> Result<(), AllocError> {
        let first = self.book.layout.equations();
        let mut way = 0;
        write!(self.out, "\nrules")?;
        for number in 0..self.book.layout.rules() {
            write!(self.out, "\n  ")?;
            self.add_sides(first.saturating_add(number), " -> ")?;
            way = self.add_way(way)?;
        }
        Ok(())
    }

    // Adds all sections of the book.
    pub(crate) fn add_book(&mut self) -> Result<(), AllocError> {
        self.add_names()?;
        self.add_equations()?;
        self.add_rules()?;
        self.out.push('\n')
    }
}
