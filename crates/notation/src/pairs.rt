// Pairs of terms to be compared, one a line, in the names of a book.
ghost use Rattle.std.specs.Prelude.{◌≡◌, ◌≤◌, IfOk, vec_len};
ghost use Rattle.lexing.specs.declared.pairs.Line.TheVariants.{Blank};

use crate::parser::Parser;
use crate::signature::Signature;
use crate::terms::Limits;
use lexing::cursor::Cursor;
use lexing::fault::{Error, Expected};
use lexing::lexer::Kind;
use lexing::pairs::{Line, MOST_TERM, Pair};
use std::alloc::Global;

// A letter or a sign has two words.
const MOST_SYMBOLS: usize = MOST_TERM / 2;

// A term of a pair.
const TERM: Limits = Limits {
    symbols: MOST_SYMBOLS,
    letters: 16,
    told: MOST_SYMBOLS,
    of: "letters and signs a term",
};

impl Parser<'_> {
    // Takes two terms with `=` between them, and adds their rows.
    fn pair(&mut self, pair: &mut Pair) -> Result<(), Error>
        requires { (vec_len pair.old.one ≤ 0) × (vec_len pair.old.other ≤ 0) }
        ensures one { vec_len pair.new.one ≤ 13056 }
        ensures other { vec_len pair.new.other ≤ 13056 }
    {
        self.term(&mut pair.one, TERM)?;
        self.cursor
            .expect(Kind::Equals, Expected::Words("`=` and the other term"))?;
        self.term(&mut pair.other, TERM)?;
        self.cursor
            .expect(Kind::End, Expected::Words("the end of the line"))
    }
}

// Reads the rows of the two terms of a line. Where there are none, the rows are empty.
pub fn parse_pair(
    heap: Global,
    signature: &Signature,
    line: &[u8],
    pair: &mut Pair,
) -> Result<Line, Error>
    ensures one { vec_len pair.new.one ≤ 13056 }
    ensures other { vec_len pair.new.other ≤ 13056 }
    ensures blank { IfOk result (λ line. line ≡ Blank → (vec_len pair.new.one ≡ 0) × (vec_len pair.new.other ≡ 0)) }
{
    pair.one.clear();
    pair.other.clear();
    let cursor = Cursor::new(heap, line, 0);
    if cursor.token.is(Kind::End) {
        return Ok(Line::Blank);
    }
    // Stays a match: where a term became too long, its error is an answer.
    match (Parser { cursor, signature }).pair(pair) {
        Ok(()) => Ok(Line::Pair),
        Err(_) if pair.one.len() == MOST_TERM || pair.other.len() == MOST_TERM => Ok(Line::Long),
        Err(e) => Err(e),
    }
}
