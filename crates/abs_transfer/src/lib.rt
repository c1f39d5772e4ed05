//! What each instruction makes of what is known: scalar instructions, those on CSRs, vset, vector loads and stores, and facts on
//! vector registers.
//!
//! Numbers are those of [`abs_domain`]. A load or store whose bytes may lie outside every zone with the right is refused.
#![tactic(auto)]

mod accesses;
mod csr;
mod facts;
mod laws;
mod legal;
mod scalar;
mod vset;

pub use accesses::{Reach, reach_at, transfer_check};
pub use csr::after_csr;
pub use facts::{after_groups, cut_groups};
pub use laws::addresses_lie;
pub use legal::legal_check;
pub use scalar::{address_range, after_scalar};
pub use vset::{Set, after_vset};
