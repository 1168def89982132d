// The sections of names: signs, with their parts and ranks, and letters.
ghost use Rattle.std.specs.Prelude.{◌≤◌, IfOk};

use crate::parser::entry_comes;
use crate::signature::{Sign, Signature};
use lexing::cursor::Cursor;
use lexing::fault::{Error, Expected};
use lexing::lexer::Kind;
use std::alloc::Global;

// The longest name, in characters.
const MOST_NAME: usize = 64;

const MOST_SIGNS: u32 = 32;

const MOST_PARTS: u32 = 4;

const MOST_LETTERS: u32 = 256;

// The parser of the names, and those that it has read.
#[derive(Drop)]
pub(crate) struct Names<'a> {
    pub(crate) cursor: Cursor<'a>,
    pub(crate) signature: Signature,
    // whether signs say their ranks, as the first does; nothing before the first
    ranked: Option<bool>,
}

impl<'a> Names<'a> {
    pub(crate) fn new(heap: Global, text: &'a [u8]) -> Names<'a> {
        Names {
            cursor: Cursor::new(heap, text, 0),
            signature: Signature::new(heap),
            ranked: None,
        }
    }

    // Takes a name that stands for nothing yet.
    fn name(&mut self) -> Result<String, Error> {
        let cursor = self.cursor;
        if !cursor.token.is_name() {
            return Err(cursor.fault(Expected::Words("a name")));
        }
        if cursor.token.word.len() > MOST_NAME {
            return Err(cursor.fault(Expected::AtMost(MOST_NAME, "characters in a name")));
        }
        if self.signature.named(cursor.token.word).is_some() {
            return Err(cursor.fault(Expected::Words("a name that is not yet in use")));
        }
        let name = String::from_utf8_lossy(cursor.heap, cursor.token.word)?;
        self.cursor.advance();
        Ok(name)
    }

    // Takes how many parts a sign has.
    fn parts(&mut self) -> Result<u32, Error>
        ensures { IfOk result (λ n. n ≤ MOST_PARTS) }
    {
        match self.cursor.token.number() {
            Some(n) if n <= MOST_PARTS => {
                self.cursor.advance();
                Ok(n)
            }
            _ => Err(
                self.cursor
                    .fault(Expected::Words("a number of parts from 0 to 4")),
            ),
        }
    }

    // Takes `rank` and a rank.
    fn rank(&mut self) -> Result<u32, Error> {
        self.cursor.advance();
        let expected = match self.cursor.token.number() {
            Some(rank) if !self.signature.has_rank(rank) => {
                self.cursor.advance();
                return Ok(rank);
            }
            Some(_) => "a rank that no other sign has",
            None => "a rank of at most 32 bits",
        };
        Err(self.cursor.fault(Expected::Words(expected)))
    }

    // Takes the sign with this number, which is its rank where signs say none.
    fn sign(&mut self, number: u32) -> Result<(), Error> {
        let name = self.name()?;
        self.cursor.expect(Kind::Slash, Expected::Words("`/` and the number of parts"))?;
        let parts = self.parts()?;
        let says = self.cursor.token.is_word(b"rank");
        let rank = match (*self.ranked.get_or_insert(says), says) {
            (true, true) => self.rank()?,
            (false, false) => number,
            (true, false) => {
                return Err(
                    self.cursor
                        .fault(Expected::Words("`rank`, as for the signs before")),
                );
            }
            (false, true) => {
                return Err(
                    self.cursor
                        .fault(Expected::Words("no rank, as for the signs before")),
                );
            }
        };
        Ok(self.signature.signs.push(Sign { name, parts, rank })?)
    }

    // Takes the signs, and tells how many.
    pub(crate) fn take_signs(&mut self) -> Result<u32, Error> {
        if !self.cursor.take_word(b"signs") {
            return Err(self.cursor.fault(Expected::Words("`signs`")));
        }
        self.sign(0)?;
        // Stays a count: by `signs.len()` the loop's measure would need a clause on the list of each of `sign`, `name`, `parts` and `rank`.
        let mut count = 1;
        // Stays a loop: tried a closure for an entry: the borrow checker doesn't cover its call, as its `Error` holds a `&'static str`.
        while entry_comes(self.cursor, count, MOST_SIGNS, "signs")? {
            self.sign(count)?;
            count += 1;
        }
        Ok(count)
    }

    // Takes the letters, if there are any.
    pub(crate) fn take_letters(&mut self) -> Result<(), Error> {
        if !self.cursor.take_word(b"letters") {
            return Ok(());
        }
        // Stays a count and a loop, as in `take_signs`.
        let mut count = 0;
        while entry_comes(self.cursor, count, MOST_LETTERS, "letters")? {
            let name = self.name()?;
            self.signature.letters.push(name)?;
            count += 1;
        }
        Ok(())
    }
}
