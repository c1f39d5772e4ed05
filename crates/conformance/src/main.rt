//! Runs tables of outside vectors through the public calls of the crates below, and prints for each table how many rows
//! came out as expected, and what the first few others gave. The tables are read from the working directory.
#![tactic(auto)]

mod arguments;
mod checks;
mod draws;
mod fields;
mod images;
mod jobs;
mod legality;
mod makes;
mod memory;
mod monitors;
mod runs;
mod sessions;
mod state;
mod step;
mod steps;
mod table;
mod words;

use anyhow::Result;
use checks::Checks;
use images::Images;
use jobs::Jobs;
use legality::Legality;
use makes::Makes;
use monitors::Monitors;
use runs::Runs;
use sessions::Sessions;
use steps::Steps;
use table::run_table;
use words::Words;

fn main(rt: HostRuntime) -> Result<()> {
    run_table(&rt, "words", "words.txt", &mut Words)?;
    run_table(&rt, "legality", "legality.txt", &mut Legality)?;
    run_table(&rt, "steps", "steps.txt", &mut Steps::new(rt.alloc())?)?;
    run_table(&rt, "images", "images.txt", &mut Images)?;
    run_table(&rt, "runs", "runs.txt", &mut Runs)?;
    run_table(&rt, "checks", "checks.txt", &mut Checks)?;
    run_table(&rt, "orders", "orders.txt", &mut Checks)?;
    run_table(&rt, "sessions", "sessions.txt", &mut Sessions)?;
    run_table(&rt, "makes", "makes.txt", &mut Makes)?;
    run_table(&rt, "loops", "loops.txt", &mut Sessions)?;
    run_table(&rt, "monitors", "monitors.txt", &mut Monitors)?;
    run_table(&rt, "jobs", "jobs.txt", &mut Jobs)?;
    Ok(())
}
