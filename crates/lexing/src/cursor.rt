// A text that is read token by token, and the faults that are found in it.
ghost use Rattle.std.specs.Prelude.{◌≡◌, ◌+◌, ◌≤◌, ◌↔◌, IfErr, IsTrue, OnErr, OnOk, false, length, vec_len, ◌≢◌};
ghost use Rattle.lexing.specs.declared.lexer.Kind.TheVariants.{Name};
ghost use Rattle.lexing.specs.Tokens.{TokenOf};
ghost use Rattle.lexing.specs.Faults.{FaultAt};

use crate::fault::{Error, Expected, Fault, Found, place_after};
use crate::lexer::{Kind, Token, token_from};
use std::alloc::{AllocError, Global};

// The longest word that a fault shows whole.
const SHOWN: usize = 64;

// A text, and the token of it that comes next.
#[derive(Clone, Copy)]
pub struct Cursor<'a> {
    pub heap: Global,
    pub text: &'a [u8],
    pub token: Token<'a>,
    pub ghost within: { token.start + length token.word.now ≤ length text.now },
}

impl<'a> Cursor<'a> {
    ghost use Rattle.lexing.specs.Cursors.{Advances};

    // Before the first token at or after `from`.
    pub fn new(heap: Global, text: &'a [u8], from: usize) -> Cursor<'a>
        ensures text { result.text.now ≡ text.now }
        ensures token { TokenOf text.now from result.token }
    {
        Cursor {
            heap,
            text,
            token: token_from(text, from),
        }
    }

    // Goes on to the next token.
    pub fn advance(&mut self)
        ensures { Advances self.old self.new }
    {
        *self = Cursor::new(self.heap, self.text, self.token.end());
    }

    // Goes on to the next token if this one is what was looked for.
    // Stays bools, here and below: each answers whether the token came.
    fn take_if(&mut self, found: bool) -> bool
        ensures found { result ≡ found }
        ensures taken { IsTrue result → Advances self.old self.new }
        ensures left { result ≡ false → self.new ≡ self.old }
    {
        if found {
            self.advance();
        }
        found
    }

    // Takes a token of this kind, if it comes next.
    pub fn take(&mut self, kind: Kind) -> bool
        ensures found { IsTrue result ↔ (self.old.token.kind ≡ kind) }
        ensures taken { IsTrue result → Advances self.old self.new }
        ensures left { result ≡ false → self.new ≡ self.old }
    {
        self.take_if(self.token.is(kind))
    }

    // Takes this word, if it comes next.
    pub fn take_word(&mut self, word: &[u8]) -> bool
        ensures found { IsTrue result ↔ ((self.old.token.kind ≡ Name) × (self.old.token.word.now ≡ word.now)) }
        ensures taken { IsTrue result → Advances self.old self.new }
        ensures left { result ≡ false → self.new ≡ self.old }
    {
        self.take_if(self.token.is_word(word))
    }

    // Takes a token of this kind, which has to come next.
    pub fn expect(&mut self, kind: Kind, expected: Expected) -> Result<(), Error>
        ensures ok { OnOk result ((self.old.token.kind ≡ kind) × Advances self.old self.new) }
        ensures err { OnErr result ((self.old.token.kind ≢ kind) × (self.new ≡ self.old)) }
        ensures fault { IfErr result (FaultAt self.old.text.now self.old.token.start expected) }
    {
        if self.take(kind) {
            Ok(())
        } else {
            Err(self.fault(expected))
        }
    }

    fn found(self) -> Result<Found, AllocError> {
        if self.token.is(Kind::End) {
            return Ok(Found::End);
        }
        let word = &self.token.word[..self.token.word.len().min(SHOWN)];
        Ok(Found::Word(String::from_utf8_lossy(self.heap, word)?))
    }

    // The error that the next token stands where something else was expected.
    pub fn fault(self, expected: Expected) -> Error
        ensures { FaultAt self.entry.text.now self.entry.token.start expected result }
    {
        match self.found() {
            Ok(found) => Error::Fault(Fault {
                place: place_after(&self.text[..self.token.start]),
                found,
                expected,
            }),
            Err(e) => Error::from(e),
        }
    }

    // Takes the numbers that come next, at most `most`, and adds them to the row.
    pub(crate) fn add_numbers(&mut self, row: &mut Vec<u32>, most: usize) -> Result<(), AllocError>
        ensures { vec_len row.new ≤ vec_len row.old + most }
    {
        // Stays a counted loop: it ends with the numbers, or when `most` of them are taken.
        for _turn in 0..most {
            let Some(n) = self.token.number() else {
                return Ok(());
            };
            row.push(n)?;
            self.advance();
        }
        Ok(())
    }
}
