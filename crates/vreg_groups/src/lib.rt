//! The vector registers: the vector type and length, the elements of register groups, and which vector instructions
//! are legal.
#![tactic(auto)]

mod bytes;
mod chunks;
mod elements;
mod group;
pub mod laws;
mod legality;
mod lendable;
mod policies;
mod registers;
mod setup;
mod vector_length;
mod vector_type;

pub use chunks::{choose, written_lanes};
pub use elements::Element;
pub use group::Group;
pub use legality::{are_operands_legal, legal, legal_access_type, legal_type, whole_count};
pub use policies::{Agnostic, Policy};
pub use registers::VregFile;
pub use setup::Setup;
pub use vector_length::{Avl, Vconfig, Vlen, vset};
pub use vector_type::{Lmul, MOST_ELEMENTS, Vtype, type_in};
