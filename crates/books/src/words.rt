// Symbols, each two words of a row, and where terms end.
ghost use Rattle.std.specs.Prelude.{◌≡◌, ◌^◌, ◌<◌, [], ◌∷◌, IfSome};
ghost use Rattle.books.specs.Reading.{allowed, tag, number, Asks, SymbolAt, TermsEnd, TermEnd};

// Which letters a term may have: those below 16, or any.
// Stays a parameter of what reads terms: it says which letters are allowed, and the steps are the same.
#[derive(Clone, Copy, PartialEq, Eq, Debug)]
pub enum Letters {
    Small,
    Any,
}

// A letter or a sign, by its number.
#[derive(Clone, Copy, PartialEq, Eq, Debug)]
pub enum Symbol {
    Letter(u32),
    Sign(u32),
}

impl Letters {
    fn allow(self, x: u32) -> bool
        ensures { result ≡ allowed self x }
    {
        match self {
            Letters::Small => x < 16,
            Letters::Any => true,
        }
    }
}

impl Symbol {
    // Its two words in a row: a letter is 0 and its number, and a sign 1 and its number.
    pub fn words(self) -> [u32; 2]
        ensures { result ≡ tag self ∷ number self ∷ [] }
    {
        match self {
            Symbol::Letter(x) => [0, x],
            Symbol::Sign(f) => [1, f],
        }
    }

    // How many terms have to follow: none after a letter, its parts after a sign.
    fn asks(self, letters: Letters, parts: &[u32]) -> Option<usize>
        ensures is { Asks letters parts.now self result }
        ensures small { IfSome result (λ n. n < 2 ^ 32) }
    {
        match self {
            Symbol::Letter(x) => letters.allow(x).then_some(0),
            Symbol::Sign(f) => Some(*parts.get(f as usize)? as usize),
        }
    }
}

// The symbol at a place of a row.
// Stays words with a place, here and below: sides and ways stand in the middle of a row, and the place where they end is told.
pub fn symbol_at(words: &[u32], at: usize) -> Option<Symbol>
    ensures { SymbolAt words.now at result }
{
    match words.get(at..)? {
        [0, x, ..] => Some(Symbol::Letter(*x)),
        [1, f, ..] => Some(Symbol::Sign(*f)),
        _ => None,
    }
}

// Where `count` terms end that start at a place of a row.
// Stays a signature beside the words: terms are read by it before there is a book.
pub fn terms_end(
    letters: Letters,
    parts: &[u32],
    words: &[u32],
    at: usize,
    count: usize,
) -> Option<usize>
    ensures { TermsEnd letters parts.now count words.now at result }
{
    if at > words.len() {
        return None;
    }
    // Stays a while: it ends with the last pending term and not with the words, and its answer is the place itself.
    let mut pending = count;
    let mut i = at;
    while pending > 0 {
        // each pending term takes at least the two words of a symbol
        if pending > (words.len() - i) / 2 {
            return None;
        }
        let symbol = symbol_at(words, i)?;
        pending = pending - 1 + symbol.asks(letters, parts)?;
        i += 2;
    }
    Some(i)
}

// Where a term ends that starts at a place of a row.
pub fn term_end(letters: Letters, parts: &[u32], words: &[u32], at: usize) -> Option<usize>
    ensures { TermEnd letters parts.now words.now at result }
{
    terms_end(letters, parts, words, at, 1)
}
