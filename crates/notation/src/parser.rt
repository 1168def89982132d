// The parser of what comes after a book's names, and what it shares with the parser of these.
ghost use Rattle.std.specs.Prelude.{◌≡◌, ◌<◌, IfOk, true};

use crate::signature::Signature;
use lexing::cursor::Cursor;
use lexing::fault::{Error, Expected};

// A text that is read by the names of a book.
#[derive(Clone, Copy)]
pub(crate) struct Parser<'a> {
    pub(crate) cursor: Cursor<'a>,
    pub(crate) signature: &'a Signature,
}

// Whether a further entry of a section comes, which has `count` of them and may have `most`.
pub(crate) fn entry_comes(
    cursor: Cursor<'_>,
    count: u32,
    most: u32,
    entries: &'static str,
) -> Result<bool, Error>
    ensures { IfOk result (λ comes. comes ≡ true → count < most) }
{
    let comes = cursor.token.is_name();
    if comes && count >= most {
        return Err(cursor.fault(Expected::AtMost(most as usize, entries)));
    }
    Ok(comes)
}
