//! What is known of a machine at an instruction of a certified kernel, and what each instruction makes of it.
//!
//! A number that is not known is an atom. A register's number is known as a form over atoms and a range; memory is known
//! by the zones that may be read and written throughout a run.
#![tactic(auto)]

mod after;
mod blocks;
mod branches;
mod edges;
mod laws;
mod state;
mod vectors;

pub use abs_domain::{
    Effect, MOST_ATOMS, Numbers, VL, Value, Why, Zone, block_numbers_hold, computed_range,
    constant_effect, constant_effects, csr_effect, csr_effects, entry_numbers_hold,
    immediate_effect, immediate_effects, load_allowed, load_effect, load_effects, memory_zones,
    offset_form, offset_range, register_effect, register_effects, results_hold, shift_effect,
    shift_effects, store_allowed, stores_keep_zones, zones_are_permitted, zones_are_there,
};
pub use abs_transfer::{Reach, address_range, addresses_lie, after_csr, after_scalar};
pub use branches::{Edge, Relation, Said};
pub use edges::{
    implies, is_equality_shown, is_interval_shown, is_order_shown, is_vector_shown, least_left,
    most_asked, sum_on,
};
pub use laws::{
    blocks_are_held, checks_are_legal, csr_steps_hold, cut_are_true, edges_are_taken, edges_keep,
    entries_are_held, implied_ends, implied_fits, one_edge, scalar_steps_hold, stated_are_true,
    steps_are_held, steps_count, steps_go_on, straight_edges, transfers_are_permitted,
    transfers_keep_memory, untouched_are_true, vsets_are_held,
};
pub use state::{Abstract, MOST_WORDS, Way, block_limit_in_numbers};
