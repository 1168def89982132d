// Rows as text: the decimal words of a book on one line, and those of its ways on the next.
// Stays a text with a place, as in the lexer: faults tell where a word stands in the whole text.
ghost use Rattle.std.specs.Prelude.{◌≤◌, length, IfOk, vec_len};

use crate::cursor::Cursor;
use crate::fault::{Error, Expected};
use crate::lexer::{Kind, find_from};
use std::alloc::Global;

// How many words the longest row of a book has: 67, and 64 for each side. The ways' row may be as long.
pub const MOST_WORDS: usize = 16_451;

// The row of a book, or of none, and that of its ways.
#[derive(Debug, Drop, PartialEq, Eq)]
pub struct Rows {
    pub book: Vec<u32>,
    pub ways: Vec<u32>,
    pub ghost book_short: { vec_len book ≤ 16451 },
    pub ghost ways_short: { vec_len ways ≤ 16451 },
}

// The place of the end of the line that goes on at `from`, or of the end of the text.
pub fn line_end(text: &[u8], from: usize) -> usize
    ensures { result ≤ length text.now }
{
    find_from(text, from, |b| *b == b'\n')
}

// The words on the line that goes on at `from`.
fn row(heap: Global, text: &[u8], from: usize) -> Result<Vec<u32>, Error>
    ensures { IfOk result (λ v. vec_len v ≤ 16451) }
{
    let line = &text[..line_end(text, from)];
    let mut words = Vec::with_capacity(heap, MOST_WORDS)?;
    let mut cursor = Cursor::new(heap, line, from);
    cursor.add_numbers(&mut words, MOST_WORDS)?;
    if cursor.token.is(Kind::End) {
        return Ok(words);
    }
    Err(cursor.fault(if words.len() < MOST_WORDS {
        Expected::Words("a number of at most 32 bits")
    } else {
        Expected::AtMost(MOST_WORDS, "words a row")
    }))
}

// Reads the two rows. Any words will do; the second line may be empty or absent, and after it nothing follows.
pub fn read_rows(heap: Global, text: &str) -> Result<Rows, Error> {
    let bytes = text.as_bytes();
    let book = row(heap, bytes, 0)?;
    let second = line_end(bytes, 0).saturating_add(1);
    let ways = row(heap, bytes, second)?;
    let after = Cursor::new(heap, bytes, line_end(bytes, second));
    if !after.token.is(Kind::End) {
        return Err(after.fault(Expected::Words("the end of the text after two rows")));
    }
    Ok(Rows { book, ways })
}
