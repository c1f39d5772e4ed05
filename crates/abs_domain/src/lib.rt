//! What is known of numbers and of memory: values over atoms, what operations make of them, zones, and what is known of both
//! where a block of a certificate begins, and where a run does.
//!
//! A number that is not known is an atom. A register's number is known as a form over atoms and a range; memory is known
//! by the zones that may be read and written throughout a run.
#![tactic(auto)]

mod effects;
mod laws;
mod numbers;
mod starts;
mod values;
mod why;
mod zones;

pub use effects::{
    constant_effect, copy_of, csr_effect, fitting, immediate_effect, just, load_effect,
    multiple_range, offset_form, offset_range, register_effect, shift_effect, up_to,
};
pub use laws::{
    block_numbers_hold, constant_effects, csr_effects, entry_numbers_hold, immediate_effects,
    load_effects, register_effects, results_hold, shift_effects, stores_keep_zones,
    zones_are_permitted, zones_are_there,
};
pub use numbers::{MOST_ATOMS, NUMBERS, Numbers, VL, whole_atom};
pub use starts::{entry_numbers, start_value};
pub use values::{Effect, Value, computed_range, known};
pub use why::Why;
pub use zones::{Zone, load_allowed, memory_zones, store_allowed};
