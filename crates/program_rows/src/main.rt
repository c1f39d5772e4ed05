//! Performs the cases of tables: words of a command line over files in memory. Prints for each table how many cases came out
//! as expected, and what the first few others gave. The tables are read from the working directory.
#![tactic(auto)]

mod error;
mod performance;
mod shelf;
mod spelling;
mod stage;
mod streams;
mod table;

use anyhow::Result;
use std::fs;
use table::{Texts, run_table};

/// The tables, in the order in which they are tried.
const TABLES: [&str; 10] = [
    "trying",
    "accepted",
    "kernels",
    "making",
    "monitoring",
    "explaining",
    "why_images",
    "why_certificates",
    "why_checks",
    "why_jobs",
];

fn main(rt: HostRuntime) -> Result<()> {
    let shared = fs::read_to_string(&rt, "shared.txt")?;
    for name in TABLES {
        let path = format!(in rt.alloc(); "{name}.txt")?;
        let own = fs::read_to_string(&rt, path.as_str())?;
        let texts = Texts {
            own: own.as_str(),
            shared: shared.as_str(),
        };
        run_table(&rt, name, texts)?;
    }
    Ok(())
}
