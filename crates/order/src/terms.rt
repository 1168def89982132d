// The terms that stand in a rule's sides, each by the place of its first word.
ghost use Rattle.std.specs.Prelude.{◌≡◌, slice_index, MatchOption};
ghost use Rattle.rewriting.specs.Order.{rank};
ghost use Rattle.rewriting.specs.Terms.{Term};
ghost use Rattle.books.specs.Rows.{row};
ghost use Rattle.order.specs.Comparing.{Stands, Headed, SplitsByWords, Equates, DifferAt};

use books::words::{Letters, Symbol, symbol_at, term_end};

// The words of a rule's left side and of its right; of each sign how many parts it has, and its rank.
#[derive(Drop)]
pub struct Comparison<'a> {
    pub left: &'a [u32],
    pub right: &'a [u32],
    pub parts: &'a [u32],
    pub ranks: &'a [u32],
}

// Some terms, one after the other: how many, and the place where the first starts.
// Stays a count and a place: the table is looked up by places.
#[derive(Clone, Copy)]
pub struct Parts {
    pub count: usize,
    pub start: usize,
}

// The sign that stands first in a term, and its parts.
#[derive(Clone, Copy)]
pub struct Head {
    pub sign: u32,
    pub parts: Parts,
}

impl Comparison<'_> {
    pub fn rank(&self, f: u32) -> u32
        ensures { result ≡ rank self.now.ranks.now f }
    {
        self.ranks.get(f as usize).copied().unwrap_or(0)
    }

    fn arity(&self, f: u32) -> usize
        ensures { result ≡ slice_index self.now.parts.now f }
    {
        self.parts.get(f as usize).copied().unwrap_or(0) as usize
    }

    // The head of the term at place k, or none if it is a letter.
    pub fn head(&self, words: &[u32], k: usize) -> Option<Head>
        ensures { Headed self.now.parts.now words.now k result }
    {
        match symbol_at(words, k)? {
            Symbol::Letter(_) => None,
            Symbol::Sign(f) => Some(Head {
                sign: f,
                parts: Parts {
                    count: self.arity(f),
                    start: k + 2,
                },
            }),
        }
    }

    // The terms behind the first one, if there is a first one.
    pub fn rest(&self, words: &[u32], terms: Parts) -> Option<Parts>
        ensures { SplitsByWords self.now.parts.now words.now terms result }
    {
        let count = terms.count.checked_sub(1)?;
        let start = term_end(Letters::Small, self.parts, words, terms.start)?;
        Some(Parts { count, start })
    }

    // The words of the term at place k.
    fn term<'a>(&self, words: &'a [u32], k: usize) -> Option<&'a [u32]>
        ensures { MatchOption result ((t : Term) → Stands self.now.parts.now words.now k t → ⊥)
            (λ ws. (t : Term) → Stands self.now.parts.now words.now k t → ws.now ≡ row t) }
    {
        let end = term_end(Letters::Small, self.parts, words, k)?;
        Some(&words[k..end])
    }

    // Whether the terms at place k on the left and at place j on the right are the same.
    pub fn same(&self, k: usize, j: usize) -> bool
        ensures { Equates self.now k j result }
    {
        self.term(self.left, k) == self.term(self.right, j)
    }

    // Of some terms on the left and some on the right, where the first stand that differ.
    pub fn first_difference(&self, lefts: Parts, rights: Parts) -> Option<(usize, usize)>
        ensures { DifferAt self.now lefts rights result }
    {
        // Stays a loop that yields by `break`: the project keeps this form here.
        let mut a = lefts;
        let mut b = rights;
        loop {
            let (Some(c), Some(d)) = (self.rest(self.left, a), self.rest(self.right, b)) else {
                break None;
            };
            // Where the first terms end is known here: `same` would look for it again.
            if self.left[a.start..c.start] != self.right[b.start..d.start] {
                break Some((a.start, b.start));
            }
            a = c;
            b = d;
        }
    }
}
