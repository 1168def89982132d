// The types: what is put for letters, lists of places, the stack of frames with what is worked at, and the want of room.
use crate::list::Places;
use std::ops::ControlFlow;
use store::Place;

// What is put for letters: for each of 32 a place, or nothing yet.
// Stays an array in a struct by value: the project keeps this form, and no heap is used here.
#[derive(Clone, Copy)]
pub struct Bindings {
    pub at: [Option<Place>; 32],
}

// The places that are still to be matched, the next one last: as many as a side has symbols, and the parts of one more.
pub type Pending = Places<36>;

// The places of terms that are built and not yet parts of another, the next one last: as many as a side has symbols.
pub type Built = Places<32>;

// A sign one of whose parts is worked at: how many others it has, how many of these are done, and, if it is known, the place from
// which work at the part began.
#[derive(Clone, Copy, Debug, PartialEq, Eq)]
pub struct Frame {
    pub sign: u32,
    pub others: u32,
    pub done: u32,
    pub asked: Option<Place>,
}

// A stack of frames in lent words, four words each. Those below `fresh` have forgotten what they asked for.
// Stays words with a depth: the words are lent, and no heap is used here.
// Stays without facts of the type: work at a term begins by clearing the stack, so any will do. What reads a frame asks that they fit.
#[derive(Drop)]
pub struct Frames<'a> {
    pub words: &'a mut [u32],
    pub depth: usize,
    pub fresh: usize,
}

// What is worked at: a term to be brought to normal form, or a normal form that goes to the top frame.
#[derive(Clone, Copy, Debug, PartialEq, Eq)]
pub enum Focus {
    Eval(Place),
    Back(Place),
}

// There is too little room for the work.
#[derive(Clone, Copy, Debug, PartialEq, Eq)]
pub struct NoRoom;

// What a turn comes to: the next focus, or the end with a normal form; or there is too little room for it.
pub type Progress = Result<ControlFlow<Place, Focus>, NoRoom>;
