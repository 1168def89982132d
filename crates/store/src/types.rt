// The types: a store of shared terms, and the stack of roots that says which are kept.
ghost use Rattle.std.specs.Prelude.{◌≡◌, ◌*◌, ◌<◌, ◌≤◌, false, length};
ghost use Rattle.store.specs.Slots.{tag_of, kind_of, flag_of, Shared};
ghost use Rattle.store.specs.Chains.{Chains};
ghost use Rattle.store.specs.declared.types.Short.TheVariants.{NoCell};

// A store in lent words, with `room` slots. The first `count` are in use, each for another term; at `limit` of them it is collected.
// Buckets are numbered up to `mask`, a number of the form 2^k - 1.
#[derive(Drop)]
pub struct Store<'a> {
    pub words: &'a mut [u32],
    pub room: usize,
    pub limit: usize,
    pub mask: usize,
    pub count: usize,
    pub ghost shared: { Shared words.now count },
    pub ghost chains: { Chains mask words.now count },
    pub ghost fits: { 16 * room ≤ length words.now },
    pub ghost within: { count ≤ limit },
    pub ghost limited: { limit ≤ room },
    pub ghost some: { 0 < limit },
}

// A stack of places in lent words: their terms are kept. After a collection any other place is another term's, or none's.
// Stays words with a top: the words are lent, and no heap is used here.
#[derive(Drop)]
pub struct Roots<'a> {
    pub cells: &'a mut [u32],
    pub top: usize,
}

// Where a term stands: the number of its slot.
#[derive(Clone, Copy, Debug, PartialEq, Eq, Default)]
pub struct Place(pub usize);

// What stands at a place: a letter, or a sign and how many parts it has.
#[derive(Clone, Copy, Debug, PartialEq, Eq)]
pub enum Node {
    Letter(u32),
    Sign(u32, usize),
}

// Which of the roots that become parts is the first part: the lowest or the uppermost.
#[derive(Clone, Copy, Debug, PartialEq, Eq)]
pub enum Order {
    Up,
    Down,
}

// What was wanting: a slot for a term, or a cell for a root.
#[derive(Clone, Copy, Debug, PartialEq, Eq)]
pub enum Full {
    NoSlot,
    NoRoot,
}

// What was wanting to write a row: a word for it, or a cell for a root.
#[derive(Clone, Copy, Debug, PartialEq, Eq)]
pub enum Short {
    NoWord,
    NoCell,
}

// Only cells for roots can be wanting where no term is made.
impl From<Full> for Short {
    ghost from_gives = { λ _ s. s ≡ NoCell };

    fn from(_full: Full) -> Short {
        Short::NoCell
    }
}

// A term to be made: its head, and which roots are its parts, from one on.
#[derive(Clone, Copy)]
pub struct Plan {
    pub head: usize,
    pub from: usize,
    pub order: Order,
    pub ghost few: { tag_of (kind_of head) ≤ 5 },
    pub ghost unflagged: { flag_of head ≡ false },
}
