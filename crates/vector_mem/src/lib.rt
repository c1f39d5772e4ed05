//! Vector loads and stores: the accesses of an instruction as a list, and all of them made, or none.
#![tactic(auto)]

mod accesses;
mod each;
mod elements;
mod operands;
mod plan;
mod transfers;
mod windows;

pub use accesses::access;
pub use plan::{Access, AccessPlan};
pub use transfers::{load, store};
