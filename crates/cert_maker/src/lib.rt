//! Plain strip-mined loops: which loops they are, the certificate of one, and laws on the way to its check.
#![tactic(auto)]

mod building;
mod errors;
mod instructions;
mod laws;
mod loops;
mod making;
mod refusal;

pub use errors::MakeError;
pub use laws::{
    body_keeps, certificates_pass, facts_are, lengths_are_set, loops_end, loops_go_on, loops_lead,
    pointers_move, pointers_return, reaches_end, returns_pass, rounds_end, splits_are,
};
pub use loops::{Head, Loop, Reading, loop_of};
pub use making::{make, make_in, make_kept};
pub use refusal::{LoopRow, MakeRefusal, Misfit};
