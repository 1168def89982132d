// Whether a book has one end, by all places where two rules meet.
#![tactic(auto)]

pub mod ends;
mod letters;
mod overlap;
mod pairs;
pub mod types;
