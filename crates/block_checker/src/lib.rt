//! The check of an image against its certificate, and what an image that passes it does.
#![tactic(auto)]

mod accepted;
mod checks;
mod errors;
mod laws;
mod refused;

pub use accepted::{Accepted, check, check_in, check_kept, check_kept_in};
pub use checks::checked;
pub use errors::CheckError;
pub use laws::passing_runs_end;
pub use refused::{Explanation, Halt, Kept, Part, Refused, Spot, Stop, place_of, refused_edge};
