// Where the sides of a book stand in its row.
ghost use Rattle.std.specs.Prelude.{◌≡◌, slice_index};

// Side i stands from starts[i] up to starts[i + 1]. Each equation and rule has two, its left and its right, the equations first.
#[derive(Clone, Copy)]
pub struct Layout {
    pub(crate) signs: usize,
    pub(crate) equations: usize,
    pub(crate) rules: usize,
    // Stays an array: the two counts above say how much of it is used, and where the rules begin; a length of its own would say so again.
    pub(crate) starts: [usize; 257],
}

impl Layout {
    pub fn signs(&self) -> usize
        ensures { result ≡ self.now.signs }
    {
        self.signs
    }

    pub fn equations(&self) -> usize
        ensures { result ≡ self.now.equations }
    {
        self.equations
    }

    pub fn rules(&self) -> usize
        ensures { result ≡ self.now.rules }
    {
        self.rules
    }

    // Where side i starts, and side i - 1 ends.
    pub fn start(&self, i: usize) -> usize
        ensures { result ≡ slice_index self.now.starts i }
    {
        self.starts.get(i).copied().unwrap_or(0)
    }
}
