//! Files by their paths, and inputs, with counts of what is read of them.
//!
//! - `store` has where files are, and those of a system, read so far as is needed.
//! - `system` has what opens and makes the files of the system, `memory` files in memory.
//! - `sources` has what inputs come from, and how reads are counted.
#![tactic(auto)]

mod memory;
mod sources;
mod store;
mod system;

pub use memory::Memory;
pub use sources::{Counted, Counts, Source};
pub use store::{Disk, MOST_READS, Store, StoreError, read_some, reads_in_numbers};
pub use system::{Native, System};
