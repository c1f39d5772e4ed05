//! The command line: which words name which subcommand, and what they lead to.
#![tactic(auto)]

mod line;
mod program;

pub use program::{Ended, end_without_words, perform};
