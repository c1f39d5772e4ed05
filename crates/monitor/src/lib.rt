//! Commands on a run: as they are typed, the steps that they ask for, and what they tell.
#![tactic(auto)]

mod breakpoints;
mod commands;
mod monitor;
mod moves;
mod numbers;
mod texts;
mod views;
mod words;

pub use commands::{Command, Flow, MonError};
pub use monitor::Monitor;
pub use moves::{go_on, step_at_most};
pub use rv_listing::{Failed, Over, Sink};
pub use texts::{put_csrs, put_registers};
pub use words::parse;
