//! What a vector instruction works under.

pub use vreg_groups::Setup;
