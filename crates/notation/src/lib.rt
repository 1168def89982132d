// The readable form of books: names for signs and letters, equations and rules as one writes them on paper.
#![tactic(auto)]

mod book;
mod declarations;
mod pairs;
mod parser;
mod sections;
pub mod signature;
mod terms;

pub use book::{Book, parse};
pub use pairs::parse_pair;
