// Collection in place: what the roots reach is marked, then slides down over the rest. Parts stand before what they are parts of, so one
// pass down marks all, and one pass up moves all.
// Stays over words, a count and a mask: until all is moved the words are no store.
// Stays loops over numbers: slots and roots are named by numbers, and each turn reads words that it writes to.
// Stays in the contracts that the roots are below the count: it relates them to words that are no store yet.
ghost use Rattle.std.specs.Prelude.{◌≡◌, ℕ, ◌+◌, ◌-◌, ◌*◌, ◌<◌, ◌≤◌, length};
ghost use Rattle.store.specs.Cells.{HasSlot};
ghost use Rattle.store.specs.Slots.{kind_at, tag_of, arity_at, part_at, last_at, note_at, Shape, Shared};
ghost use Rattle.store.specs.Chains.{Chains};
ghost use Rattle.store.specs.Marks.{Closed, MarkedToo, AllMarked, Unmarked, RootsMarked};
ghost use Rattle.store.specs.Slides.{Translated, Slid, Collected};
ghost use Rattle.store.specs.Roots.{HasRoots};
ghost use Rattle.store.specs.Stacks.{root_in, RootsIn, RootsMoved};

use crate::chains::push;
use crate::keys::Key;
use crate::slots::{HEAD, LAST, NOTE, arity_at, clear, get, part, put};
use crate::types::{Place, Roots};
use std::array;

// Clears the marks and the buckets of the first n slots. They lie side by side, and all slots are gone through only once for both.
fn unmark(ws: &mut [u32], n: usize)
    requires { 16 * n ≤ length ws.old }
    ensures { Unmarked ws.old n ws.new }
{
    for i in 0..n {
        put(ws, i, NOTE, 0);
        put(ws, i, LAST, 0);
    }
}

fn mark_parts(ws: &mut [u32], count: usize, i: usize)
    requires { (Shape ws.old count) × (i < count) }
    ensures { MarkedToo (λ k. part_at ws.old i k) (arity_at ws.old i) ws.old ws.new }
{
    for k in 0..arity_at(ws, i) {
        let p = part(ws, i, k);
        put(ws, p, NOTE, 1);
    }
}

// Marks what the marked slots reach.
fn mark_reached(ws: &mut [u32], count: usize)
    requires { Shape ws.old count }
    ensures { AllMarked 0 count ws.old ws.new }
{
    for i in (0..count).rev() {
        if get(ws, i, NOTE) != 0 {
            mark_parts(ws, count, i);
        }
    }
}

fn mark_roots(ws: &mut [u32], count: usize, roots: &Roots)
    requires slots { 16 * count ≤ length ws.old }
    requires roots { RootsIn roots.now count }
    ensures { MarkedToo (λ k. root_in roots.now k) roots.now.top ws.old ws.new }
{
    for k in 0..roots.top {
        put(ws, roots.place(k).0, NOTE, 1);
    }
}

// Marks what the roots reach, and nothing else.
fn mark(ws: &mut [u32], count: usize, roots: &Roots)
    requires shape { Shape ws.old count }
    requires roots { RootsIn roots.now count }
    requires unmarked { (j : ℕ) → j < count → note_at ws.old j ≡ 0 }
    ensures { RootsMarked ws.old count (λ k. root_in roots.now k) roots.now.top ws.new }
{
    mark_roots(ws, count, roots);
    mark_reached(ws, count);
}

// The new place of part k of slot i, which has n parts.
// Stays beside `gather` of roots: tried one helper that takes a closure; what `from_fn` asks of it did not close.
fn moved_part(ws: &[u32], i: usize, n: usize, k: usize) -> usize
    requires slot { (HasSlot ws.now i) × (n ≤ 4) }
    requires parts { (m : ℕ) → m < n → HasSlot ws.now (part_at ws.now i m) }
    requires noted { (m : ℕ) → m < n → 0 < note_at ws.now (part_at ws.now i m) }
    ensures { k < n → result ≡ note_at ws.now (part_at ws.now i k) - 1 }
{
    if k < n {
        get(ws, part(ws, i, k), NOTE) - 1
    } else {
        0
    }
}

// The key of slot i, with its parts' new places.
fn translated(ws: &[u32], i: usize) -> Key
    requires slot { (HasSlot ws.now i) × (tag_of (kind_at ws.now i) ≤ 5) }
    requires parts { (k : ℕ) → k < arity_at ws.now i → HasSlot ws.now (part_at ws.now i k) }
    requires noted { (k : ℕ) → k < arity_at ws.now i → 0 < note_at ws.now (part_at ws.now i k) }
    ensures { Translated ws.now i result }
{
    let n = arity_at(ws, i);
    Key {
        head: get(ws, i, HEAD),
        parts: array::from_fn(|k| moved_part(ws, i, n, k)),
    }
}

// Moves the marked slots down, notes where to, and chains them anew; says how many there are.
fn slide(ws: &mut [u32], count: usize, mask: usize) -> usize
    requires shared { (Shared ws.old count) × ((Closed ws.old count) × (HasSlot ws.old mask)) }
    requires empty { (j : ℕ) → j < mask + 1 → last_at ws.old j ≡ 0 }
    ensures slid { Slid ws.old count ws.new result }
    ensures chains { Chains mask ws.new result }
{
    let mut n = 0;
    for i in 0..count {
        if get(ws, i, NOTE) != 0 {
            let key = translated(ws, i);
            push(ws, n, mask, &key);
            n += 1;
            put(ws, i, NOTE, n);
        }
    }
    n
}

fn move_roots(roots: &mut Roots, ws: &[u32])
    requires has_roots { HasRoots roots.old.cells.now roots.old.top }
    requires noted { (k : ℕ) → k < roots.old.top →
        HasSlot ws.now (root_in roots.old k) × (0 < note_at ws.now (root_in roots.old k)) }
    ensures { RootsMoved ws.now roots.old roots.old.top roots.new }
{
    for k in 0..roots.top {
        let p = roots.place(k);
        roots.set(k, Place(get(ws, p.0, NOTE) - 1));
    }
}

// Keeps what the roots reach, chained by a mask; says how many slots that is.
pub fn compact(ws: &mut [u32], count: usize, mask: usize, roots: &mut Roots) -> usize
    requires shared { (Shared ws.old count) × (HasSlot ws.old mask) }
    requires roots { RootsIn roots.old count }
    ensures chains { Chains mask ws.new result }
    ensures kept { Collected ws.old count (λ k. root_in roots.old k) roots.old.top
        ws.new result (λ k. root_in roots.new k) }
    ensures top { roots.new.top ≡ roots.old.top }
    ensures long { length roots.new.cells.now ≡ length roots.old.cells.now }
{
    unmark(ws, count.max(mask + 1));
    mark(ws, count, roots);
    let n = slide(ws, count, mask);
    move_roots(roots, ws);
    clear(ws, n, NOTE);
    n
}
