//! Why a job is refused, why no certificate is made for one, and why its run is not started: what stands there, and what is
//! wanted.
//!
//! A reason is a value, whose text is one or more lines. Each line begins with two spaces and ends in a newline.
#![tactic(auto)]

mod escaped;
mod job;
mod loops;
mod make;
mod open;

pub use escaped::Escaped;
pub use job::{Command, JobReason, table_in, table_reason};
pub use loops::{LoopReason, loop_reason};
pub use make::{MakeReason, attach_reason, parameter_reason};
pub use open::{Given, OpenReason, open_reason};
