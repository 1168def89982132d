// Chains of slots by hash: finding the slot of a key, and adding one.
// Stays a table of its own: its slots and buckets lie in lent words, and no heap is used here.
// Stays in the contracts that a key fits: its parts are below a count that the key doesn't hold.
ghost use Rattle.std.specs.Prelude.{◌≡◌, ◌≤◌, true, false, None, length, slice_index};
ghost use Rattle.store.specs.Cells.{HasSlot};
ghost use Rattle.store.specs.Slots.{Shared};
ghost use Rattle.store.specs.Keys.{FitsIn};
ghost use Rattle.store.specs.Chains.{mix_of, hash_of, key_bucket, Chains, Found, Holds, Pushed, OneMore};

use crate::keys::Key;
use crate::slots::{LAST, LINK, NOTE, arity, get, kind, kind_at, part, put, put_slot};
use crate::types::Store;

const WORD_BITS: usize = 32;

// 2^64 over the golden ratio: multiples of it spread well over the upper bits.
const GOLDEN: usize = 11400714819323198485;

#[tactic(auto, unfolding(crate::specs::Chains::mix_of))]
fn mix(h: usize, x: usize) -> usize
    ensures { result ≡ mix_of h x }
{
    h.wrapping_add(x).wrapping_mul(GOLDEN)
}

// A hash with parts added.
fn hash(start: usize, parts: &[usize]) -> usize
    ensures { result ≡ hash_of start (λ k. slice_index parts.now k) (length parts.now) }
{
    let mut h = start;
    for &p in parts {
        h = mix(h, p);
    }
    h
}

// The bucket of a key. What differs only in the first part goes to neighbouring buckets, so that towers and lists stay in the cache.
fn bucket(mask: usize, key: &Key) -> usize
    ensures is { result ≡ key_bucket mask key.now }
    ensures low { result ≤ mask }
{
    let kind = kind(key.head);
    let h = mix(kind, 0);
    match &key.parts[..arity(kind)] {
        [] => h >> WORD_BITS & mask,
        [first, rest @ ..] => first.wrapping_add(hash(h, rest) >> WORD_BITS) & mask,
    }
}

// Whether slot i is what the key says.
fn holds(ws: &[u32], i: usize, key: &Key) -> bool
    requires { HasSlot ws.now i }
    ensures yes { result ≡ true → Holds ws.now i key.now }
    ensures no { result ≡ false → Holds ws.now i key.now → ⊥ }
{
    let kind = kind(key.head);
    let parts = &key.parts[..arity(kind)];
    kind_at(ws, i) == kind && parts.iter().enumerate().all(|(k, &p)| part(ws, i, k) == p)
}

impl Store<'_> {
    // The slot of a key.
    pub(crate) fn find(&self, key: &Key) -> Option<usize>
        requires { FitsIn key.now self.now.count }
        ensures { Found self.now.words.now self.now.count key.now result }
    {
        let mut next = get(self.words, bucket(self.mask, key), LAST);
        // Stays a while: it follows links from slot to slot, until there is none.
        while let Some(i) = next.checked_sub(1) {
            if holds(self.words, i, key) {
                return Some(i);
            }
            next = get(self.words, i, LINK);
        }
        None
    }
}

// Stays over words, a count and a mask, in what follows: between these writes the words are no store.

// Writes a key into slot n, at the end of its bucket.
pub fn push(ws: &mut [u32], n: usize, mask: usize, key: &Key)
    requires { (HasSlot ws.old n) × (HasSlot ws.old mask) }
    ensures { Pushed mask ws.old n key.now ws.new }
{
    let b = bucket(mask, key);
    let last = get(ws, b, LAST);
    put_slot(ws, n, key, last);
    put(ws, b, LAST, n + 1);
}

// Adds a key that no slot has as slot n, with no note.
pub fn add(ws: &mut [u32], n: usize, mask: usize, key: &Key)
    requires shared { (Shared ws.old n) × (Chains mask ws.old n) }
    requires new { (FitsIn key.now n) × (Found ws.old n key.now None) }
    requires room { HasSlot ws.old n }
    ensures { OneMore mask ws.old n key.now ws.new }
{
    push(ws, n, mask, key);
    put(ws, n, NOTE, 0);
}
