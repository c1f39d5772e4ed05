//! The tests, by what they try.

mod assertions;
mod drawers;
mod jobs;
mod known;
mod opens;
mod performances;
mod reading;
mod reasons;
mod stores;
mod system;
