//! The vector half of a RISC-V hart: the vector registers with vtype and vl, and one step of any instruction of Zve32x but
//! loads and stores of segments and fault-only-first loads.
//!
//! Contracts see a `VectorState` as a record of the registers' bytes, vtype and vl, and the setting for agnostic elements.
#![tactic(auto)]

mod arithmetic;
mod configuration;
mod doubles;
mod elements;
mod fixed_point;
mod fold_elements;
mod in_place;
mod integer;
pub mod laws;
mod loads_stores;
mod masks;
mod moves;
mod narrowing;
mod operands;
mod operations;
mod permutations;
mod reductions;
mod resizing;
mod rooms;
mod setup;
mod shapes;
mod singles;
mod state;
mod step;
mod widening;

pub use state::VectorState;
pub use step::{judge, step_access, step_known, step_vector};
