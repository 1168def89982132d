// The letters of rules and of a hole; and the types: an overlap of two rules, its two results, and the row of a term.
use store::Place;

// Letters of rules are below this; those of the second rule are renamed by it.
pub const LETTERS: usize = 16;

// The letter that stands for a hole: none that a rule has.
pub const HOLE: usize = 16;

// Where two rules may meet: the left side of rule `inner`, at the part of rule `outer`'s left side that stands in its row from word
// `from` up to `to`. Of what is in the list of overlaps (`critical_pairs`) it has the numbers.
// Stays two places: a range can't be copied, and the words of the part alone wouldn't tell what stands around it.
#[derive(Clone, Copy)]
pub struct Overlap {
    pub outer: usize,
    pub inner: usize,
    pub from: usize,
    pub to: usize,
}

// The two results where two rules meet (a critical pair).
#[derive(Clone, Copy)]
pub struct Pair {
    pub first: Place,
    pub second: Place,
}

// The row of a term of at most 32 symbols: the first `len` words.
// Stays an array with a length: it can be copied, as no vector can.
#[derive(Clone, Copy)]
pub struct Row {
    pub words: [u32; 64],
    pub len: usize,
}
