//! The tests, by what they try.

mod assertions;
mod certificates;
mod checks;
mod kernels;
mod machines;
mod monitoring;
mod readme;
mod runs;
mod sessions;
mod spares;
mod states;
mod want_of_memory;
mod want_of_memory_in_checks;
mod want_of_memory_in_runs;
