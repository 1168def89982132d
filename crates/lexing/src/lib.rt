// Texts: their tokens and the places of these, faults, and rows of decimal words.
#![tactic(auto)]

pub mod cursor;
pub mod fault;
pub mod lexer;
pub mod pairs;
mod rows;

pub use rows::{MOST_WORDS, Rows, line_end, read_rows};
