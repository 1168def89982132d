// Reading rows of single terms and of ways.
ghost use Rattle.std.specs.Prelude.{◌≡◌, ◌↔◌, Some, length};
ghost use Rattle.rewriting.specs.Answers.{Tells};
ghost use Rattle.rewriting.specs.Terms.{Term};
ghost use Rattle.books.specs.Rows.{Of, SomeWays};

use crate::words::{Letters, term_end, terms_end};

// Whether the words are a term of the signature, with letters below 16.
pub fn is_term(parts: &[u32], words: &[u32]) -> bool
    ensures { Tells result ((t : Term) × Of parts.now words.now t) }
{
    term_end(Letters::Small, parts, words, 0).is_some_and(|end| end == words.len())
}

// Where as many ways end as there are rules, of terms of the signature with any letters.
fn ways_end(parts: &[u32], rules: usize, words: &[u32]) -> Option<usize>
    ensures { (result ≡ Some (length words.now)) ↔ SomeWays parts.now rules words.now }
{
    let mut at = 0;
    // Stays a loop over numbers: tried `try_fold`: it leaves an induction over its turns, for which there is no lemma.
    for _ in 0..rules {
        let count = *words.get(at)? as usize;
        at = terms_end(Letters::Any, parts, words, at + 1, count)?;
    }
    Some(at)
}

// Whether the words are as many ways of terms of the signature, with any letters, as there are rules.
pub fn are_ways(parts: &[u32], rules: usize, words: &[u32]) -> bool
    ensures { Tells result (SomeWays parts.now rules words.now) }
{
    ways_end(parts, rules, words) == Some(words.len())
}
