// Comparing pairs of terms, one a line, by a book that is judged once.
#![tactic(auto)]

mod lines;
mod out;
mod pairs;
mod session;

pub use pairs::Asking;
pub use session::tell_pairs;
