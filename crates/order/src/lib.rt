// Whether the rules of a book go down in the lexicographic path order.
#![tactic(auto)]

mod compare;
mod down;
mod table;
mod terminating;
mod terms;

pub use down::{first_up, goes_down};
pub use terminating::Terminating;
