// Numbers of 64 bits in lent words of 32: two words each, the low one first.
// Stays by hand: the library makes numbers of bytes, and these are words.
ghost use Rattle.std.specs.Prelude.{◌≡◌, ◌+◌, ◌≤◌, length};
ghost use Rattle.store.specs.Numbers.{number_in, NumberPut};

// How many numbers a word can hold.
pub const WORD: usize = 4294967296;

// The number at a place of the words.
#[tactic(auto, unfolding(crate::specs::Numbers::number_in))]
pub fn number_at(words: &[u32], at: usize) -> usize
    requires { at + 2 ≤ length words.now }
    ensures { result ≡ number_in words.now at }
{
    words[at] as usize + WORD * (words[at + 1] as usize)
}

pub fn put_number(words: &mut [u32], at: usize, v: usize)
    requires { at + 2 ≤ length words.old }
    ensures { NumberPut words.old at v words.new }
{
    words[at] = (v % WORD) as u32;
    words[at + 1] = (v / WORD) as u32;
}
