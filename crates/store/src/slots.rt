// Slots in lent words: reading and writing their cells. A slot of 16 words is one cache line.
// Stays in the contracts that there is a slot i: it is a fact of an index.
// Stays words with the numbers of a slot and a cell: between two writes the words are no store.
// Stays numbers for heads, kinds and links, with 0 for none: that is what cells of lent words hold.
ghost use Rattle.std.specs.Prelude.{◌≡◌, ◌+◌, ◌*◌, ◌<◌, ◌≤◌, false, length};
ghost use Rattle.store.specs.Cells.{cell, HasSlot, CellPut, Cleared};
ghost use Rattle.store.specs.Slots.{kind_of, kind_at, arity_of, arity_at, part_at, tag_of, symbol_of, flag_of, PartsWritten};
ghost use Rattle.store.specs.Keys.{SlotWritten};

use crate::keys::Key;
use crate::numbers::{WORD, number_at, put_number};

// The words of a slot, and its cells.
pub const SLOT: usize = 16;

pub const HEAD: usize = 0;

const PARTS: usize = 1;

pub const LINK: usize = 5;

pub const LAST: usize = 6;

pub const NOTE: usize = 7;

// In a head the number of parts stands above the symbol, which is a word, and the flag above that.
pub const FLAG: usize = 8 * WORD;

// Cell k of slot i.
#[tactic(auto, unfolding(crate::specs::Cells::cell))]
pub fn get(ws: &[u32], i: usize, k: usize) -> usize
    requires { (HasSlot ws.now i) × (k < 8) }
    ensures { result ≡ cell ws.now i k }
{
    number_at(ws, SLOT * i + 2 * k)
}

pub fn put(ws: &mut [u32], i: usize, k: usize, v: usize)
    requires { (HasSlot ws.old i) × (k < 8) }
    ensures { CellPut ws.old i k v ws.new }
{
    put_number(ws, SLOT * i + 2 * k, v);
}

// Part k of slot i.
pub fn part(ws: &[u32], i: usize, k: usize) -> usize
    requires { (HasSlot ws.now i) × (k < 4) }
    ensures { result ≡ part_at ws.now i k }
{
    get(ws, i, k + PARTS)
}

// Clears cell k of the first n slots.
// Stays a loop over numbers: tried `chunks_exact_mut(SLOT)`; after such a loop a proof knows the number of words, and not what they are.
pub fn clear(ws: &mut [u32], n: usize, k: usize)
    requires { (16 * n ≤ length ws.old) × (k < 8) }
    ensures { Cleared ws.old n k ws.new }
{
    for i in 0..n {
        put(ws, i, k, 0);
    }
}

// The kind in a head.
#[tactic(auto, unfolding(crate::specs::Slots::kind_of))]
pub fn kind(head: usize) -> usize
    ensures { result ≡ kind_of head }
{
    head % FLAG
}

// How many parts a kind has: a letter none.
#[tactic(auto, unfolding(crate::specs::Slots::tag_of))]
pub fn arity(kind: usize) -> usize
    ensures { result ≡ arity_of kind }
{
    (kind / WORD).saturating_sub(1)
}

// The kind that slot i has, and how many parts.
pub fn kind_at(ws: &[u32], i: usize) -> usize
    requires { HasSlot ws.now i }
    ensures { result ≡ kind_at ws.now i }
{
    kind(get(ws, i, HEAD))
}

pub fn arity_at(ws: &[u32], i: usize) -> usize
    requires { HasSlot ws.now i }
    ensures { result ≡ arity_at ws.now i }
{
    arity(kind_at(ws, i))
}

// The symbol of a kind.
#[tactic(auto, unfolding(crate::specs::Slots::symbol_of))]
pub fn symbol(kind: usize) -> u32
    ensures { result ≡ symbol_of kind }
{
    (kind % WORD) as u32
}

// The head of a letter, and of a sign of n parts, with no flag.
pub fn letter_head(x: u32) -> usize
    ensures tag { tag_of (kind_of result) ≡ 0 }
    ensures symbol { symbol_of (kind_of result) ≡ x }
    ensures flag { flag_of result ≡ false }
{
    x as usize
}

pub fn sign_head(f: u32, n: usize) -> usize
    requires { n ≤ 4 }
    ensures tag { tag_of (kind_of result) ≡ n + 1 }
    ensures symbol { symbol_of (kind_of result) ≡ f }
    ensures flag { flag_of result ≡ false }
{
    f as usize + WORD * (n + 1)
}

fn put_parts(ws: &mut [u32], n: usize, ps: &[usize; 4])
    requires { HasSlot ws.old n }
    ensures { PartsWritten ws.old n ps.now 4 ws.new }
{
    for (k, &p) in ps.iter().enumerate() {
        put(ws, n, k + PARTS, p);
    }
}

// Writes head, parts and link of slot n.
pub fn put_slot(ws: &mut [u32], n: usize, key: &Key, link: usize)
    requires { HasSlot ws.old n }
    ensures { SlotWritten ws.old n key.now link ws.new }
{
    put(ws, n, HEAD, key.head);
    put_parts(ws, n, &key.parts);
    put(ws, n, LINK, link);
}
