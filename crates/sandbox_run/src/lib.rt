//! Whole runs of an image on a caller's buffers.
//!
//! A run steps from the first state until it ends, is out of steps, or meets a fault. What each
//! step does is said by the crates below.
#![tactic(auto)]

mod any_session;
mod going_on;
mod laws;
mod outcome;
mod run;
mod session;

pub use any_session::AnySession;
pub use laws::{
    accepted_runs, accepted_stops, exit_is_no_code, more_steps_change_nothing, runs_hand_back,
    sessions_are_runs, starts_are_alike, steps_are_unique, tries_are_runs,
};
pub use machine::{Registers, Spare};
pub use outcome::{Final, OpenError, Outcome, TriedRun};
pub use run::{outcome_is_first, runs_go_on, try_run, try_run_in, try_run_with_last};
pub use session::{Session, open_in, open_in_with};
