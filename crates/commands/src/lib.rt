//! The subcommands: what each reads, in order, what it does with it, and what it prints and writes.
//!
//! Each has a module: `checks`, `makes`, `mons`, `runs` and `tries`. What they share stands in the others:
//!
//! - `starts` has what those on a job begin with, `files` what is read, and the out files.
//! - `lines` has the input of `mon`, `trial` what comes of a run, `registers` those that it left.
//! - `memory` has the subcommands over files in memory.
//!
//! How each ends stands in `endings`, and where files are in `file_store`.
#![tactic(auto)]

mod checks;
mod files;
mod lines;
mod makes;
mod memory;
mod mons;
mod registers;
mod runs;
mod starts;
mod trial;
mod tries;

pub use checks::check_image;
pub use endings::{Status, Stop};
pub use file_store::{
    Counted, Counts, Disk, MOST_READS, Memory, Native, Source, Store, StoreError, System,
    read_some, reads_in_numbers,
};
pub use files::needs_in_numbers;
pub use job_reasons::Escaped;
pub use makes::{MakePaths, make_image};
pub use memory::{check_memory, make_memory, mon_memory, run_memory, try_memory};
pub use mons::{mon_job, mon_job_within};
pub use runs::run_job;
pub use rv_listing::{Failed, Over, Sink, Stream};
pub use tries::try_job;
