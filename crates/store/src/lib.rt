// Shared terms in lent words: equal terms have one place, and what no root reaches is taken back.
#![tactic(auto)]

mod chains;
mod collect;
mod keys;
mod make;
mod numbers;
mod roots;
mod rows;
mod slots;
mod types;
mod view;

pub use types::{Full, Node, Order, Place, Roots, Short, Store};
