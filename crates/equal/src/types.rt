// The answers.
// Stays two enums of listed answers: the project keeps them and their names.

// What is said of a book: it settles its equations; or the first thing that fails; or that there are too few words to tell.
#[derive(Clone, Copy, Debug, PartialEq, Eq)]
pub enum Judged {
    Settles,
    Up(usize),
    Apart,
    Lost(usize),
    Stray,
    NoBook,
    Room,
    Few,
}

// What is said of two terms.
#[derive(Clone, Copy, Debug, PartialEq, Eq)]
pub enum Told {
    Same,
    Different,
    Unsettled,
    NoTerm,
    Full,
    Unjudged,
    Small,
}
