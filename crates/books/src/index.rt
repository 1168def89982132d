// The rules of a book by their top signs.
ghost use Rattle.std.specs.Prelude.{◌≡◌, ℕ, ◌+◌, ◌*◌, ◌<◌, ◌≤◌, None, length, slice_index, slice_index_or};
ghost use Rattle.books.specs.Indexing.{Indexed, top_word};

// For each sign the first rule with that top sign, and for each rule the next one with the same.
// Stays two arrays: a book has at most 32 signs and 64 rules, and no heap is used here.
#[derive(Clone, Copy)]
pub struct Index {
    pub(crate) first: [Option<usize>; 32],
    pub(crate) next: [Option<usize>; 64],
}

impl Index {
    // The first rule whose top sign is f.
    pub fn first_with(&self, f: u32) -> Option<usize>
        requires { f < 32 }
        ensures { result ≡ slice_index_or self.now.first f None }
    {
        self.first[f as usize]
    }

    // The next rule after rule i with the same top sign.
    pub fn next_like(&self, i: usize) -> Option<usize>
        requires { i < 64 }
        ensures { result ≡ slice_index_or self.now.next i None }
    {
        self.next[i]
    }
}

// The index of rules whose left sides start where the starts say, after those of some equations.
// Stays starts and numbers: a book has its index as a field, so there is none yet, and a `Layout` can be had only from a book's words.
pub fn index_rules(words: &[u32], starts: &[usize; 257], equations: usize, rules: usize) -> Index
    requires few { (equations ≤ 64) × (rules ≤ 64) }
    requires inside { (i : ℕ) → i < rules → slice_index starts.now (2 * (equations + i)) + 2 ≤ length words.now }
    ensures { Indexed (λ i. top_word words.now starts.now equations i) rules result }
{
    let mut first = [None; 32];
    let mut next = [None; 64];
    // Stays a loop over numbers: a rule's number is what is written.
    for i in (0..rules).rev() {
        // Stays a raw word: rules are indexed by the number of their first symbol, whatever its kind; `Book` says that it is a sign.
        let f = words[starts[2 * (equations + i)] + 1] as usize;
        if f < 32 {
            next[i] = first[f];
            first[f] = Some(i);
        }
    }
    Index { first, next }
}
