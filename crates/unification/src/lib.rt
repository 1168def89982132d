// Unification of two terms of the store.
#![tactic(auto)]

mod building;
mod classes;
mod closing;
mod images;
mod letters;
pub mod types;
mod unifying;

pub use letters::find_letters;
pub use unifying::unify;
