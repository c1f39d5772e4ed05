//! The whole machine: a hart and memory, with its first state and one step.
//!
//! A step is put together from fetch, decode and the two halves of the hart. What a run of steps is
//! and what it keeps and touches is defined here too.
#![tactic(auto)]

pub mod laws;
mod machine;
mod memo;
mod registers;
mod spare;
mod starts;

pub use machine::Machine;
pub use registers::Registers;
pub use spare::Spare;
pub use starts::{start, start_with};
