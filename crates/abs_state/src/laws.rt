//! Laws of what is known of a machine, each the contract of a function that does nothing when it runs.
mod edges;
mod starts;
mod steps;
mod vectors;

pub use edges::{
    edges_are_taken, edges_keep, implied_ends, implied_fits, one_edge, straight_edges,
};
pub use starts::{blocks_are_held, entries_are_held};
pub use steps::{csr_steps_hold, scalar_steps_hold, steps_are_held, steps_count, steps_go_on};
pub use vectors::{
    checks_are_legal, cut_are_true, stated_are_true, transfers_are_permitted,
    transfers_keep_memory, untouched_are_true, vsets_are_held,
};
