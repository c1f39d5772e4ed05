//! The scalar half of a RISC-V hart: pc, the 32 integer registers, the CSRs that scalar
//! instructions reach, and one step of RV32I, M and Zicsr ("RV32I Base Integer Instruction Set",
//! "M Extension for Integer Multiplication and Division" and "Zicsr Extension for Control and Status
//! Register Instructions" of the RISC-V Unprivileged ISA).
#![tactic(auto)]

mod arithmetic;
mod computations;
mod csrs;
mod entry;
mod hart;
mod jumps;
mod laws;
mod op;
mod steps;
mod transfers;

pub use entry::{EntryValue, entry_value};
pub use hart::{EXIT, Scalar};
pub use laws::{division_with_remainder, exit_in_numbers, steps_keep_harts};
pub use op::{Op, OpKind};
pub use steps::{step_op, step_scalar};
