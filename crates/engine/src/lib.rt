// Rewriting over the store of shared terms.
#![tactic(auto)]

mod bindings;
mod frames;
pub mod instance;
mod list;
pub mod matching;
mod meeting;
mod normal;
pub mod places;
mod reducer;
mod rows;
pub mod rules;
mod space;
mod turns;
pub mod types;
pub mod work;

pub use reducer::Reducer;
