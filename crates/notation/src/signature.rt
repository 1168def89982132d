// The names of a book: its signs, with their parts and ranks, and its letters.
ghost use Rattle.std.specs.Prelude.{IfSome};
ghost use Rattle.notation.specs.Names.{LetterNamed, SignNamed, Named};

use books::words::Symbol;
use std::alloc::Global;

// A sign with how many parts it has, and its rank.
#[derive(Debug, Drop, PartialEq, Eq)]
pub struct Sign {
    pub name: String,
    pub parts: u32,
    pub rank: u32,
}

// A sign's number is its place among the signs, and a letter's its place among the letters.
// Stays two lists that are searched: names have numbers by their places, and a map from names would hold each name a second time.
#[derive(Debug, Drop, PartialEq, Eq)]
pub struct Signature {
    pub signs: Vec<Sign>,
    pub letters: Vec<String>,
}

impl Signature {
    pub fn new(heap: Global) -> Signature {
        Signature {
            signs: Vec::new(heap),
            letters: Vec::new(heap),
        }
    }

    // Stays two functions: they share `position` and `try_from` alone, and one over a closure would need a clause on what the closure says.
    fn sign_named(&self, name: &[u8]) -> Option<u32>
        ensures { IfSome result (SignNamed self.now.signs name.now) }
    {
        let place = self
            .signs
            .iter()
            .position(|sign| sign.name.as_bytes() == name)?;
        u32::try_from(place).ok()
    }

    fn letter_named(&self, name: &[u8]) -> Option<u32>
        ensures { IfSome result (LetterNamed self.now.letters name.now) }
    {
        let place = self
            .letters
            .iter()
            .position(|letter| letter.as_bytes() == name)?;
        u32::try_from(place).ok()
    }

    // What the name stands for, if anything.
    pub fn named(&self, name: &[u8]) -> Option<Symbol>
        ensures { IfSome result (Named self.now name.now) }
    {
        self.sign_named(name)
            .map(Symbol::Sign)
            .or_else(|| self.letter_named(name).map(Symbol::Letter))
    }

    // Whether a sign has this rank.
    pub fn has_rank(&self, rank: u32) -> bool {
        self.signs.iter().any(|sign| sign.rank == rank)
    }

    // Whether the ranks are 0, 1, 2 and so on.
    pub fn ranks_rise(&self) -> bool {
        self.signs
            .iter()
            .zip(0..u32::MAX)
            .all(|(sign, rank)| sign.rank == rank)
    }
}
