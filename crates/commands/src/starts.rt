//! What subcommands on a job begin with: its table, and, for `run` and `mon`, its image, accepted.
ghost use Rattle.std.specs.Prelude.{◌≡◌, MatchResult, Some};
ghost use Rattle.job_file.specs.Needs.{run_job_lent};
ghost use Rattle.toml.specs.View.{table_view};
ghost use Rattle.file_store.specs.Store.{files_of};
ghost use Rattle.endings.specs.Halt.{stop_of};
ghost use Rattle.commands.specs.Starts.{IsStarted, IsUnstarted};
ghost use Rattle.commands.specs.Steps.{IsUnasked};
ghost use Rattle.endings.specs.Why.{ExplainsTable};

use crate::files::{read_args, read_image};
use block_checker::Accepted;
use endings::{Halt, accept, not_taken};
use file_store::Store;
use job_file::{RunJob, run_job_in};
use job_reasons::Command;
use region_mem::Args;
use std::alloc::Global;
use toml::Table;

/// Reads the job file at `$path`, does `$work` on its table, and tells how it ended.
macro_rules! on_table {
    (
        $alloc:ident, $path:expr, $explain:ident, $store:ident, $errors:ident;
        $table:ident => $work:expr
    ) => {
        match $crate::files::read_table($alloc, $path, $store) {
            Ok(read) => {
                let $table = &read;
                let done = $work;
                endings::ended($alloc, done, $explain, $errors)
            }
            Err(halt) => endings::ended($alloc, Err(halt), $explain, $errors),
        }
    };
}

pub(crate) use on_table;

/// A job on an image that is accepted.
#[derive(Drop)]
pub struct Ready<'a> {
    pub job: RunJob<&'a str>,
    pub accepted: Accepted,
}

/// The same, with what it passes.
#[derive(Drop)]
pub struct Start<'a> {
    pub ready: Ready<'a>,
    pub args: Args,
}

/// The job that a command takes of a table, or why it takes none.
pub fn taken<'a, J>(
    alloc: Global,
    asked: Option<J>,
    table: &Table,
    command: Command,
) -> Result<J, Halt<'a>>
    ensures { MatchResult result (λ job. asked ≡ Some job)
        (λ why. IsUnasked asked (stop_of why)
        × ExplainsTable command (table_view table.now) why) }
{
    match asked {
        Some(job) => Ok(job),
        None => Err(not_taken(alloc, table, command)),
    }
}

/// The job that a table asks for, its image, accepted at its length of vector registers, and what
/// it passes.
pub fn started<'a, S: Store>(
    alloc: Global,
    table: &'a Table,
    command: Command,
    store: &mut S,
) -> Result<Start<'a>, Halt<'a>>
    ensures start { MatchResult result
        (λ start. IsStarted (files_of (S.held store.old)) (table_view table.entry.now)
        (run_job_lent start.ready.job) start.ready.accepted start.args.places)
        (IsUnstarted command (files_of (S.held store.old)) (table_view table.entry.now)) }
    ensures files { S.held store.new ≡ S.held store.old }
{
    let job = taken(alloc, run_job_in(table), table, command)?;
    let image = read_image(alloc, job.image, store)?;
    let accepted = accept(alloc, image, Some(job.vlen))?;
    let args = read_args(alloc, &job.params, store)?;
    let ready = Ready { job, accepted };
    Ok(Start { ready, args })
}
