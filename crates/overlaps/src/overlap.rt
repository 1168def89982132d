// Where the left side of one rule may be put on a part of another's, and what stands around that part.
ghost use Rattle.std.specs.Prelude.{◌≡◌, ◌+◌, ◌<◌, ◌≤◌, length};
ghost use Rattle.rewriting.specs.Terms.{size};
ghost use Rattle.rewriting.specs.Answers.{Tells};
ghost use Rattle.books.specs.Books.{told, rule_in};
ghost use Rattle.overlaps.specs.Positions.{SameSign, OverlapOrNone, WithHole};

use crate::types::{HOLE, Overlap, Row};
use books::words::{Letters, Symbol, symbol_at, term_end};
use order::Terminating;

// Whether two rows begin with the same sign.
fn same_sign(one: &[u32], other: &[u32]) -> bool
    ensures { Tells result (SameSign one.now other.now) }
{
    match (symbol_at(one, 0), symbol_at(other, 0)) {
        (Some(Symbol::Sign(f)), Some(Symbol::Sign(g))) => f == g,
        _ => false,
    }
}

// The overlap at symbol k of rule i's left side, if the sign of rule j's left side stands there.
pub fn overlap_at(rules: &Terminating, i: usize, j: usize, k: usize) -> Option<Overlap>
    requires rules { (i < length (told rules.now.book).rules) × (j < length (told rules.now.book).rules) }
    requires symbol { k < size (rule_in rules.now.book i).left }
    ensures { OverlapOrNone rules.now.book i j k result }
{
    let book = &rules.book;
    let left = book.rule(i).left;
    let from = 2 * k;
    if !same_sign(&left[from..], book.rule(j).left) {
        return None;
    }
    let to = term_end(Letters::Small, book.parts(), left, from)?;
    Some(Overlap {
        outer: i,
        inner: j,
        from,
        to,
    })
}

// The row with a hole, a letter, for the words from one place up to another.
// Stays a row with two places: they divide it in three, and the middle is left out.
pub fn with_hole(row: &[u32], from: usize, to: usize) -> Row
    requires { (from + 2 ≤ to) × ((to ≤ length row.now) × (length row.now ≤ 64)) }
    ensures { WithHole row.now from to result }
{
    let len = from + 2 + (row.len() - to);
    let mut words = [0; 64];
    words[..from].copy_from_slice(&row[..from]);
    words[from..from + 2].copy_from_slice(&Symbol::Letter(HOLE as u32).words());
    words[from + 2..len].copy_from_slice(&row[to..]);
    Row { words, len }
}
