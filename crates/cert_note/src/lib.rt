//! Certificates of vector kernels: what they state, how they are spelled in bytes, and why bytes spell none.
//!
//! What holds memory has its allocator as a type parameter, and a plain name, as `Certificate`, is for `Global`.
#![tactic(auto)]

mod fields;
mod reading;
mod refusals;
mod values;
mod writing;

pub use reading::{certificates_are_spellings, one_spelling, read, read_kept};
pub use refusals::{CertError, CertRefusal};
pub use values::{
    Block, Budget, Certificate, Contents, Equality, EqualityTerm, OrderFact, PARAMETER_ATOMS,
    PARAMETER_ATOMS_END, RegisterFact, VectorFact, Version, atoms_in_numbers,
};
pub use vreg_groups::Vlen;
pub use writing::write;
