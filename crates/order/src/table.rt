// Answers for pairs of places, so that none is looked for twice.
ghost use Rattle.std.specs.Prelude.{◌≡◌, replicate, None};
ghost use Rattle.order.specs.Tables.{Noted, Recalled};

// For each of 64 places on the left and of 64 on the right whether the term at the first is greater, if it is known.
// Stays an array for all pairs: no heap is used here.
#[derive(Clone, Copy)]
pub struct Table {
    answers: [[Option<bool>; 64]; 64],
}

impl Table {
    pub fn new() -> Table
        ensures { result.answers ≡ replicate 64 (replicate 64 None) }
    {
        Table {
            answers: [[None; 64]; 64],
        }
    }

    pub fn get(&self, k: usize, j: usize) -> Option<bool>
        ensures { Recalled self.now k j result }
    {
        *self.answers.get(k)?.get(j)?
    }

    pub fn set(&mut self, k: usize, j: usize, answer: bool)
        ensures { Noted self.old k j answer self.new }
    {
        if k < 64 && j < 64 {
            self.answers[k][j] = Some(answer);
        }
    }
}
