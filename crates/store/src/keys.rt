// Keys: what a slot is found by.
ghost use Rattle.std.specs.Prelude.{◌≤◌};
ghost use Rattle.store.specs.Slots.{kind_of, tag_of};

// A head and the numbers of the parts' slots. The head is a number, since it is one in the slot's words.
// Stays an array: a slot has cells for four parts, and the head says how many of them count.
#[derive(Clone, Copy, Debug, PartialEq, Eq)]
pub struct Key {
    pub head: usize,
    pub parts: [usize; 4],
    pub ghost few: { tag_of (kind_of head) ≤ 5 },
}
