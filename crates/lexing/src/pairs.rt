// Pairs of terms, one a line, as rows of decimal words with `|` between them.
ghost use Rattle.std.specs.Prelude.{◌≡◌, ◌≤◌, IfOk, vec_len};

use crate::cursor::Cursor;
use crate::fault::{Error, Expected};
use crate::lexer::Kind;
use std::alloc::{AllocError, Global};

// A row with so many words, and one more for the book, is longer than the most work words suffice for. No more of it is read.
pub const MOST_TERM: usize = 13_056;

// What a line holds.
// Stays beside the lent pair: one pair's space serves all lines, and a loop over lines can't return what one turn lent.
#[derive(Clone, Copy, Debug, PartialEq, Eq)]
pub enum Line {
    // nothing but blanks and a comment
    Blank,
    Pair,
    // a term that is too long for any work words
    Long,
}

// The rows of two terms.
#[derive(Debug, Drop, PartialEq, Eq)]
pub struct Pair {
    pub one: Vec<u32>,
    pub other: Vec<u32>,
}

impl Pair {
    // With space for the longest rows. There are no words in them yet.
    pub fn new(heap: Global) -> Result<Pair, AllocError>
        ensures { IfOk result (λ pair. (vec_len pair.one ≡ 0) × (vec_len pair.other ≡ 0)) }
    {
        Ok(Pair {
            one: Vec::with_capacity(heap, MOST_TERM)?,
            other: Vec::with_capacity(heap, MOST_TERM)?,
        })
    }

    // Reads the two rows of a line. Any words will do.
    // Stays beside `parse_pair` of notation: how a term is read, what stands between, and how one too long is known all differ.
    pub fn read(&mut self, heap: Global, line: &[u8]) -> Result<Line, Error>
        ensures one { vec_len self.new.one ≤ 13056 }
        ensures other { vec_len self.new.other ≤ 13056 }
    {
        self.one.clear();
        self.other.clear();
        let mut cursor = Cursor::new(heap, line, 0);
        if cursor.token.is(Kind::End) {
            return Ok(Line::Blank);
        }
        cursor.add_numbers(&mut self.one, MOST_TERM)?;
        if self.one.len() == MOST_TERM {
            return Ok(Line::Long);
        }
        if cursor.token.word != b"|".as_slice() {
            return Err(cursor.fault(Expected::Words("a number of at most 32 bits, or `|`")));
        }
        cursor.advance();
        cursor.add_numbers(&mut self.other, MOST_TERM)?;
        if self.other.len() == MOST_TERM {
            return Ok(Line::Long);
        }
        if !cursor.token.is(Kind::End) {
            return Err(cursor.fault(Expected::Words(
                "a number of at most 32 bits, or the end of the line",
            )));
        }
        Ok(Line::Pair)
    }
}
