// Small terms for the tests, and unifying them. What unification requires is tested first.
ghost use Rattle.store.specs.Stores.{Inside};

use arrayvec::ArrayVec;
use engine::types::Bindings;
use store::{Full, Place, Roots, Store};
use unification::{find_letters, unify};

// A letter, or a sign with the number of its parts. In a row of symbols parts stand before their sign.
#[derive(Clone, Copy)]
pub enum Symbol {
    L(u32),
    S(u32, usize),
}

// Makes the letters below 32.
fn make_letters(store: &mut Store, roots: &mut Roots) -> Result<(), Full>
    requires { Inside store.old roots.old }
{
    for x in 0..32 {
        store.make_letter(roots, x)?;
    }
    Ok(())
}

// A store that has these letters.
pub fn start<'a>(words: &'a mut [u32], cells: &mut [u32]) -> Option<Store<'a>> {
    let mut store = Store::open(words)?;
    let mut roots = Roots::new(cells);
    make_letters(&mut store, &mut roots).ok()?;
    Some(store)
}

// The sign f with these parts.
pub fn make(store: &mut Store, f: u32, parts: &[Place]) -> Option<Place> {
    let n = parts.len();
    if n > 4 || store.count >= store.limit {
        return None;
    }
    let mut places = [Place(0); 4];
    for (k, &p) in parts.iter().enumerate() {
        if p.0 >= store.count {
            return None;
        }
        places[k] = p;
    }
    Some(store.share_sign(f, places, n))
}

// The place of a letter.
pub fn letter(store: &Store, x: u32) -> Option<Place> {
    if x >= 32 {
        return None;
    }
    find_letters(store)?.get(x)
}

// The place of a letter, or of a sign whose parts are the last of these places.
fn place_of(store: &mut Store, symbol: Symbol, built: &[Place]) -> Option<Place> {
    match symbol {
        Symbol::L(x) => letter(store, x),
        Symbol::S(_, n) if n > built.len() => None,
        Symbol::S(f, n) => make(store, f, &built[built.len() - n..]),
    }
}

// The term of a row of symbols.
pub fn read(store: &mut Store, row: &[Symbol]) -> Option<Place> {
    let mut built = ArrayVec::<Place, 16>::new();
    for &symbol in row {
        let p = place_of(store, symbol, built.as_slice())?;
        if let Symbol::S(_, n) = symbol {
            built.truncate(built.len().checked_sub(n)?);
        }
        built.try_push(p).ok()?;
    }
    built.first().copied()
}

// What unification says of the terms at two places.
pub fn solve(store: &mut Store, p: Place, q: Place) -> Option<Option<Bindings>> {
    let letters = find_letters(store)?;
    let n = store.count;
    if n > 96 || store.limit - n < 96 || p.0 >= n || q.0 >= n {
        return None;
    }
    Some(unify(store, &letters, p, q))
}

// Whether nothing makes the terms of two rows one.
pub fn never(left: &[Symbol], right: &[Symbol]) -> Option<bool> {
    let mut words = [0u32; 4096];
    let mut cells = [0u32; 128];
    let mut store = start(&mut words, &mut cells)?;
    let p = read(&mut store, left)?;
    let q = read(&mut store, right)?;
    Some(solve(&mut store, p, q)?.is_none())
}

// Whether the least that makes the terms of two rows one puts the term of a third for letter x.
pub fn becomes(left: &[Symbol], right: &[Symbol], x: u32, row: &[Symbol]) -> Option<bool> {
    if x >= 32 {
        return None;
    }
    let mut words = [0u32; 4096];
    let mut cells = [0u32; 128];
    let mut store = start(&mut words, &mut cells)?;
    let p = read(&mut store, left)?;
    let q = read(&mut store, right)?;
    let found = solve(&mut store, p, q)??;
    let put = found.get(x)?;
    let wanted = read(&mut store, row)?;
    Some(put == wanted)
}

// The terms f(x1, f(x2, .. x0)) and f(g(x0, x0), f(g(x1, x1), .. x0)), with n letters besides x0.
pub fn doubling(store: &mut Store, n: u32) -> Option<(Place, Place)> {
    let mut p = letter(store, 0)?;
    let mut q = p;
    for i in (0..n).rev() {
        let x = letter(store, i)?;
        let y = letter(store, i + 1)?;
        let g = make(store, 1, &[x, x])?;
        p = make(store, 0, &[y, p])?;
        q = make(store, 0, &[g, q])?;
    }
    Some((p, q))
}
