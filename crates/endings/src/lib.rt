//! How a subcommand ends: with what it did, or with a reason to stop; the words for both, and the status.
//!
//! - `stop` has the statuses and the reasons to stop. `texts` and `escapes` have the words for these.
//! - `halt` has a reason to stop with its explanation, and `why` makes both from what a subcommand stops at. `accepted` has an
//!   image with its certificate, or why it is not accepted.
//! - `did` has what was done, `stands` how a run ended and where it stopped.
#![tactic(auto)]

mod accepted;
mod did;
mod escapes;
mod halt;
mod stands;
mod stop;
mod texts;
mod why;

pub use accepted::accept;
pub use did::{Did, stopped_at};
pub use halt::{Halt, Why};
pub use stands::{Cause, End, Place, Stand, stand_of};
pub use stop::{Status, Stop, ended};
pub use why::{
    bad_image, bad_text, not_attached, not_made, not_opened, not_started, not_taken, stop_at,
};
