// Terms, read with a stack of the signs whose parts are not all read yet.
// Stays a `Vec` with a clause on what is added: the rows of sides, of ways and of pairs have three bounds, so no one type serves.
ghost use Rattle.std.specs.Prelude.{◌+◌, ◌*◌, ◌<◌, ◌≤◌, vec_len};

use crate::parser::Parser;
use crate::signature::Sign;
use books::words::Symbol;
use lexing::fault::{Error, Expected, Mark};
use lexing::lexer::Kind;

// How many letters and signs a term may have, and below which number its letters are; and how the first limit is told.
// Stays with `told` beside `symbols`: of a way the words of its row are told, and each of its terms may have what these leave.
#[derive(Clone, Copy, Debug, PartialEq, Eq)]
pub(crate) struct Limits {
    pub(crate) symbols: usize,
    pub(crate) letters: u32,
    pub(crate) told: usize,
    pub(crate) of: &'static str,
}

// A sign of which a part is read, and how many of its parts come after that.
#[derive(Clone, Copy, Debug, PartialEq, Eq)]
struct Open<'a> {
    sign: &'a Sign,
    left: u32,
}

impl<'a> Parser<'a> {
    // The error that a mark of the sign's parts does not come.
    fn parts_fault(&self, sign: &Sign, mark: Mark) -> Error {
        match sign.name.clone() {
            Ok(name) => self.cursor.fault(Expected::Parts(mark, sign.parts, name)),
            Err(e) => Error::from(e),
        }
    }

    // Takes a letter or a sign, and adds its two words to `row`; gives the sign if its parts come next.
    fn symbol(&mut self, row: &mut Vec<u32>, letters: u32) -> Result<Option<Open<'a>>, Error>
        ensures { vec_len row.new ≤ vec_len row.old + 2 }
    {
        if !self.cursor.token.is_name() {
            return Err(self.cursor.fault(Expected::Words("a term")));
        }
        match self.signature.named(self.cursor.token.word) {
            Some(Symbol::Letter(x)) if x < letters => {
                self.letter(row, x)?;
                Ok(None)
            }
            Some(Symbol::Letter(_)) => Err(
                self.cursor
                    .fault(Expected::Words("one of the first 16 letters")),
            ),
            Some(Symbol::Sign(f)) => self.sign(row, f),
            None => Err(
                self.cursor
                    .fault(Expected::Words("the name of a sign or a letter")),
            ),
        }
    }

    fn letter(&mut self, row: &mut Vec<u32>, letter: u32) -> Result<(), Error>
        ensures { vec_len row.new ≤ vec_len row.old + 2 }
    {
        row.extend_from_slice(&Symbol::Letter(letter).words())?;
        self.cursor.advance();
        if self.cursor.token.is(Kind::Open) {
            return Err(
                self.cursor
                    .fault(Expected::Words("no bracket after a letter")),
            );
        }
        Ok(())
    }

    fn sign(&mut self, row: &mut Vec<u32>, number: u32) -> Result<Option<Open<'a>>, Error>
        requires { number < vec_len self.old.signature.now.signs }
        ensures { vec_len row.new ≤ vec_len row.old + 2 }
    {
        let sign = &self.signature.signs[number as usize];
        row.extend_from_slice(&Symbol::Sign(number).words())?;
        self.cursor.advance();
        let opened = self.cursor.take(Kind::Open);
        match sign.parts.checked_sub(1) {
            Some(left) if opened => Ok(Some(Open { sign, left })),
            Some(_) => Err(self.parts_fault(sign, Mark::Open)),
            None if opened && !self.cursor.take(Kind::Close) => Err(self.parts_fault(
                sign,
                Mark::Close,
            )),
            None => Ok(None),
        }
    }

    // After a whole term: takes the closing brackets of the signs that end with it; whether another part comes then.
    // Stays a bool in the Result: it answers whether another part comes.
    fn close(&mut self, open: &mut Vec<Open<'a>>) -> Result<bool, Error> {
        while let Some(Open { sign, left }) = open.pop() {
            if left > 0 {
                if !self.cursor.take(Kind::Comma) {
                    return Err(self.parts_fault(sign, Mark::Comma));
                }
                open.push(Open {
                    sign,
                    left: left - 1,
                })?;
                return Ok(true);
            }
            if !self.cursor.take(Kind::Close) {
                return Err(self.parts_fault(sign, Mark::Close));
            }
        }
        Ok(false)
    }

    // Takes a term, and adds its row to `row`.
    pub(crate) fn term(&mut self, row: &mut Vec<u32>, limits: Limits) -> Result<(), Error>
        ensures { vec_len row.new ≤ vec_len row.old + 2 * limits.symbols }
    {
        let mut open = Vec::new(self.cursor.heap);
        // Stays a counted loop: it ends with the term, or at the limit of its symbols.
        for _turn in 0..limits.symbols {
            match self.symbol(row, limits.letters)? {
                Some(sign) => {
                    // Space for a term of nothing but signs in each other, so that it never grows; a term without parts wants none.
                    if open.capacity() == 0 {
                        open.reserve_exact(limits.symbols)?;
                    }
                    open.push(sign)?;
                }
                None => {
                    if !self.close(&mut open)? {
                        return Ok(());
                    }
                }
            }
        }
        Err(self.cursor.fault(Expected::AtMost(limits.told, limits.of)))
    }
}
