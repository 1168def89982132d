// The types: what a call answers, and how that goes to C.
ghost use Rattle.std.specs.Prelude.{◌≡◌};
ghost use Rattle.calls.specs.Calls.{code_of, number_of, refusal_of};
ghost use Rattle.calls.specs.declared.types.Refusal.TheVariants.{Room};

use engine::types::NoRoom;
use store::{Full, Short};

// Why there is no normal form in the words: they are no book; rule i does not go down; the words are no term; steps lead to a term that is
// too large for the work words; the normal form's row is longer than the words for it; or there are too few work words for any term.
#[derive(Clone, Copy, Debug, PartialEq, Eq)]
pub enum Refusal {
    NoBook,
    Up(usize),
    NoTerm,
    Room,
    Long,
    Few,
}

// An answer's number, and the number that comes with it.
// Stays numbers: it goes to C.
#[repr(C)]
#[derive(Clone, Copy)]
pub struct Outcome {
    pub code: u32,
    pub number: usize,
}

// Want of a slot or of a cell is want of room.
impl From<Full> for Refusal {
    ghost from_gives = { λ _ r. r ≡ Room };

    fn from(_full: Full) -> Refusal {
        Refusal::Room
    }
}

impl From<NoRoom> for Refusal {
    ghost from_gives = { λ _ r. r ≡ Room };

    fn from(_none: NoRoom) -> Refusal {
        Refusal::Room
    }
}

impl From<Short> for Refusal {
    ghost from_gives = { λ s r. r ≡ refusal_of s };

    fn from(short: Short) -> Refusal {
        match short {
            Short::NoWord => Refusal::Long,
            Short::NoCell => Refusal::Room,
        }
    }
}

impl From<Result<usize, Refusal>> for Outcome {
    ghost from_gives = { λ a o. (o.code ≡ code_of a) × (o.number ≡ number_of a) };

    fn from(answer: Result<usize, Refusal>) -> Outcome {
        match answer {
            Ok(n) => Outcome { code: 0, number: n },
            Err(Refusal::NoBook) => Outcome { code: 1, number: 0 },
            Err(Refusal::Up(i)) => Outcome { code: 2, number: i },
            Err(Refusal::NoTerm) => Outcome { code: 3, number: 0 },
            Err(Refusal::Room) => Outcome { code: 4, number: 0 },
            Err(Refusal::Long) => Outcome { code: 5, number: 0 },
            Err(Refusal::Few) => Outcome { code: 6, number: 0 },
        }
    }
}
