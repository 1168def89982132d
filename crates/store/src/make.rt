// Making terms: a term's place is found or added, and a full store is collected first.
// Stays in the contracts that the roots are inside the store: it relates two values, and each changes by itself too.
// Stays in the contracts that there are at most four parts: n is a plain number, which books and slots give.
ghost use Rattle.std.specs.Prelude.{◌≡◌, ℕ, ◌+◌, ◌-◌, ◌*◌, ◌/◌, ◌^◌, ◌<◌, ◌≤◌, false, length, Some};
ghost use Rattle.rewriting.specs.Terms.{letter, sign};
ghost use Rattle.store.specs.Slots.{kind_of, arity_of, flag_of};
ghost use Rattle.store.specs.Keys.{FitsIn, key_term};
ghost use Rattle.store.specs.Chains.{Chains};
ghost use Rattle.store.specs.Stores.{Grown, Carried, Inside, RootsKept, terms_up, terms_down};
ghost use Rattle.store.specs.Making.{Opened, Interned, KeptOnly, root_term, terms_by, Placed, Made, Reserved};
ghost use Rattle.store.specs.Making.{PartsInside, SignShared, LetterShared, Emptied};

use crate::chains::add;
use crate::collect::compact;
use crate::keys::Key;
use crate::slots::{LAST, SLOT, clear, letter_head, sign_head};
use crate::types::{Full, Order, Place, Plan, Roots, Store};

// How many slots a store has before its first collection, so that short work stays in the cache.
const FIRST_LIMIT: usize = 16384;

// How many a cleared store has, so that clearing it often is cheap.
const CLEARED_LIMIT: usize = 512;

// The greatest number of the form 2^k - 1 below n.
fn mask_below(n: usize) -> usize
    requires { 0 < n }
    ensures low { result < n }
    ensures half { n ≤ 2 * result + 2 }
    ensures form { (k : ℕ) × (result + 1 ≡ 2 ^ k) }
{
    (1 << n.ilog2()) - 1
}

// Empties the buckets of a store with this limit; says what their mask is.
fn empty(ws: &mut [u32], limit: usize) -> usize
    requires { (16 * limit ≤ length ws.old) × (0 < limit) }
    ensures { Chains result ws.new 0 }
{
    let mask = mask_below(limit);
    clear(ws, mask + 1, LAST);
    mask
}

impl<'a> Store<'a> {
    // A store with nothing in it, if there are words for a slot.
    pub fn open(words: &'a mut [u32]) -> Option<Store<'a>>
        ensures { Opened (length words.old / 16) result }
    {
        let room = words.len() / SLOT;
        if room == 0 {
            return None;
        }
        let limit = room.min(FIRST_LIMIT);
        let mask = empty(words, limit);
        Some(Store {
            words,
            room,
            limit,
            mask,
            count: 0,
        })
    }
}

impl Store<'_> {
    // Drops all terms. The limit is small then, whatever it was.
    pub fn clear(&mut self)
        ensures { Emptied self.old 512 self.new }
    {
        let limit = self.room.min(CLEARED_LIMIT);
        self.mask = empty(self.words, limit);
        self.limit = limit;
        self.count = 0;
    }

    // The place of a key's term, which is added if there is none; none at the limit.
    fn intern(&mut self, key: &Key) -> Option<Place>
        requires { (FitsIn key.now self.old.count) × (flag_of key.now.head ≡ false) }
        ensures grown { Grown self.old self.new }
        ensures few { self.new.count ≤ self.old.count + 1 }
        ensures place { Interned self.old self.new
            (key_term self.old.words.now key.now) result }
        ensures new { (i : ℕ) → self.old.count ≤ i → i < self.new.count → result ≡ Some (record { 0 = i }) }
    {
        if let Some(i) = self.find(key) {
            return Some(Place(i));
        }
        let n = self.count;
        if n >= self.limit {
            return None;
        }
        add(self.words, n, self.mask, key);
        self.count = n + 1;
        Some(Place(n))
    }

    // Keeps what the roots hold and drops the rest. If that is more than a quarter of the limit, the limit is doubled, as far as there is
    // room.
    pub fn collect(&mut self, roots: &mut Roots)
        requires { Inside self.old roots.old }
        ensures { KeptOnly self.old roots.old self.new roots.new }
    {
        let mask = mask_below(self.limit);
        let n = compact(self.words, self.count, mask, roots);
        self.mask = mask;
        self.count = n;
        if n > self.limit / 4 {
            self.limit = self.room.min(2 * self.limit);
        }
    }

    // The place of a term to be made; none if what the roots hold fills the store.
    fn place(&mut self, roots: &mut Roots, plan: Plan) -> Option<Place>
        requires inside { Inside self.old roots.old }
        requires last { plan.from + arity_of (kind_of plan.head) ≡ roots.old.top }
        ensures room { self.new.room ≡ self.old.room }
        ensures carried { Carried self.old self.new }
        ensures roots { RootsKept self.old roots.old self.new roots.new }
        ensures place { Placed self.old roots.old self.new
            (root_term self.old plan.head roots.old plan.order plan.from) result }
    {
        let key = roots.gather(plan);
        if let Some(p) = self.intern(&key) {
            return Some(p);
        }
        self.collect(roots);
        let moved = roots.gather(plan);
        self.intern(&moved)
    }

    // Puts a term to be made in place of the roots that are its parts.
    fn make(&mut self, roots: &mut Roots, plan: Plan) -> Result<(), Full>
        requires inside { Inside self.old roots.old }
        requires last { plan.from + arity_of (kind_of plan.head) ≡ roots.old.top }
        ensures { Made self.old roots.old plan.from
            (root_term self.old plan.head roots.old plan.order plan.from)
            self.new roots.new result }
    {
        if roots.room() <= plan.from {
            return Err(Full::NoRoot);
        }
        let p = self.place(roots, plan).ok_or(Full::NoSlot)?;
        roots.stack(plan.from, p);
        Ok(())
    }

    // One more root, which holds a letter.
    pub fn make_letter(&mut self, roots: &mut Roots, x: u32) -> Result<(), Full>
        requires { Inside self.old roots.old }
        ensures { Made self.old roots.old roots.old.top (letter x)
            self.new roots.new result }
    {
        let plan = Plan {
            head: letter_head(x),
            from: roots.top,
            order: Order::Up,
        };
        self.make(roots, plan)
    }

    // A sign with the last n roots as parts, in their place.
    // Stays with the order as a parameter: it says which root is which part, and the steps are the same.
    fn make_sign_by(
        &mut self,
        roots: &mut Roots,
        f: u32,
        n: usize,
        order: Order,
    ) -> Result<(), Full>
        requires { (Inside self.old roots.old) × ((n ≤ 4) × (n ≤ roots.old.top)) }
        ensures { Made self.old roots.old (roots.old.top - n)
            (sign f (terms_by self.old roots.old order (roots.old.top - n) n))
            self.new roots.new result }
    {
        let plan = Plan {
            head: sign_head(f, n),
            from: roots.top - n,
            order,
        };
        self.make(roots, plan)
    }

    // The same. The lowest root is the first part.
    pub fn make_sign(&mut self, roots: &mut Roots, f: u32, n: usize) -> Result<(), Full>
        requires { (Inside self.old roots.old) × ((n ≤ 4) × (n ≤ roots.old.top)) }
        ensures { Made self.old roots.old (roots.old.top - n)
            (sign f (terms_up self.old roots.old (roots.old.top - n) n))
            self.new roots.new result }
    {
        self.make_sign_by(roots, f, n, Order::Up)
    }

    // The same. The uppermost root is the first part.
    pub fn make_sign_down(&mut self, roots: &mut Roots, f: u32, n: usize) -> Result<(), Full>
        requires { (Inside self.old roots.old) × ((n ≤ 4) × (n ≤ roots.old.top)) }
        ensures { Made self.old roots.old (roots.old.top - n)
            (sign f (terms_down self.old roots.old (roots.old.top - n) n))
            self.new roots.new result }
    {
        self.make_sign_by(roots, f, n, Order::Down)
    }

    // Sees to it that n more slots are below the limit, by a collection if need be; refused if what the roots hold leaves no room for them.
    pub fn reserve(&mut self, roots: &mut Roots, n: usize) -> Result<(), Full>
        requires { Inside self.old roots.old }
        ensures { Reserved self.old roots.old n self.new roots.new result }
    {
        if n <= self.limit - self.count {
            return Ok(());
        }
        self.collect(roots);
        if n <= self.limit - self.count {
            return Ok(());
        }
        self.limit = self.room;
        if n <= self.room - self.count {
            Ok(())
        } else {
            Err(Full::NoSlot)
        }
    }

    // The place of a letter, below the limit.
    pub fn share_letter(&mut self, x: u32) -> Place
        requires { self.old.count < self.old.limit }
        ensures { LetterShared self.old x self.new result }
    {
        let head = letter_head(x);
        let key = Key {
            head,
            parts: [0; 4],
        };
        self.intern(&key).unwrap()
    }

    // The place of the sign f with the first n places as parts, below the limit.
    // Stays an array and how many of it count: a slot has cells for four parts, and all four are written.
    pub fn share_sign(&mut self, f: u32, parts: [Place; 4], n: usize) -> Place
        requires { (n ≤ 4) × ((PartsInside self.old parts n) × (self.old.count < self.old.limit)) }
        ensures shared { SignShared self.old f parts n self.new result }
        ensures new { (i : ℕ) → self.old.count ≤ i → i < self.new.count → i ≡ result.0 }
    {
        let key = Key {
            head: sign_head(f, n),
            parts: parts.map(|p| p.0),
        };
        self.intern(&key).unwrap()
    }
}
