// Books with their names, read from the readable form.
ghost use Rattle.std.specs.Prelude.{◌≡◌, IfSome, IfOk};
ghost use Rattle.notation.specs.Rows.{BookWays};
ghost use Rattle.notation.specs.Books.{row_with, Whole};

use crate::declarations::Names;
use crate::parser::Parser;
use crate::sections::Sides;
use crate::signature::{Sign, Signature};
use books::{Layout, are_ways};
use lexing::MOST_WORDS;
use lexing::fault::{Error, Expected};
use std::alloc::{AllocError, Global};

// The names of a book, its row and where the sides stand in it, and the row of its ways.
#[derive(Drop)]
pub struct Book {
    pub signature: Signature,
    pub words: Vec<u32>,
    pub ways: Vec<u32>,
    pub layout: Layout,
}

// The row of a book with these signs and these sides.
fn book_row(heap: Global, signs: &[Sign], sides: &Sides) -> Result<Vec<u32>, AllocError>
    ensures { IfOk result (λ v. v.items ≡ row_with signs.now sides.now) }
{
    let mut words = Vec::with_capacity(heap, MOST_WORDS)?;
    words.push(sides.signs)?;
    words.extend(signs.iter().map(|sign| sign.parts))?;
    words.extend(signs.iter().map(|sign| sign.rank))?;
    words.push(sides.equations)?;
    words.push(sides.rules)?;
    words.extend_from_slice(sides.row.as_slice())?;
    Ok(words)
}

// Where the sides stand, if the words are a book's row, and the other words ways for its rules.
fn read_both(words: &[u32], ways: &[u32]) -> Option<Layout>
    ensures { IfSome result (BookWays words.now ways.now) }
{
    let book = books::Book::read(words)?;
    are_ways(book.parts(), book.layout.rules(), ways).then_some(book.layout)
}

// Reads a book in the readable form. Its words are the row of a book with the parts and ranks that its signs have, and its ways' words
// are ways for the book's rules.
pub fn parse(heap: Global, text: &str) -> Result<Book, Error>
    ensures { IfOk result Whole }
{
    let mut names = Names::new(heap, text.as_bytes());
    let signs = names.take_signs()?;
    names.take_letters()?;
    let Names {
        cursor,
        signature,
        ..
    } = names;
    let mut parser = Parser {
        cursor,
        signature: &signature,
    };
    let sides = parser.sections(signs)?;
    let words = book_row(heap, signature.signs.as_slice(), &sides)?;
    let end = parser.cursor;
    match read_both(words.as_slice(), sides.ways.words.as_slice()) {
        Some(layout) if layout.signs() == signature.signs.len() => Ok(Book {
            signature,
            words,
            ways: sides.ways.words,
            layout,
        }),
        _ => Err(end.fault(Expected::Words("a book"))),
    }
}
