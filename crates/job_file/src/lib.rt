//! Job files: the values of a TOML table, and what a subcommand takes of them.
//!
//! A text is parsed to a table (`parse`, or `parse_kept` with what is known of a refusal). The table's values are those of
//! its keys, and each may be missing (`job_in`).
//! For a table that breaks a rule of job files, the answer is the key that does (`kept_job_in`).
//! A subcommand has a struct of what it needs, in which nothing is missing (`try_job_in`, `run_job_in`, `make_job_in`).
#![tactic(auto)]

ghost use Rattle.std.specs.Prelude.{◌≡◌, IfErr, IfOk, Some, option_map};
ghost use Rattle.toml.specs.Parse.{parse_document};
ghost use Rattle.toml.specs.View.{table_view};
ghost use Rattle.job_file.specs.Job.{IsTableFault, job_fields, job_lent, job_of, kept_job_of};
ghost use Rattle.job_file.specs.Job.{read_lent};
ghost use Rattle.job_file.specs.Needs.{make_job_in, run_job_in, run_job_lent, try_job_in};
ghost use Rattle.job_file.specs.Needs.{try_job_lent};
ghost use Rattle.job_file.specs.Refusal.{IsTextRefusal};

mod fields;
mod keys;
mod needs;
mod params;
mod refusal;
mod values;

pub use keys::{JobBreach, JobKey, JobTable};
pub use refusal::TextRefusal;
use std::alloc::Global;
use toml::Table;
pub use values::{
    Job, JobError, JobParam, MakeJob, RunJob, RunParam, RunnableJob, TryJob, TryParam,
};

/// The table of a job file, or why its text has none, with what is known of that.
///
/// `TextRefusal::NotToml` comes exactly where the text is not TOML. `TextRefusal::NoMemory` comes only where an allocation
/// was refused.
pub fn parse_kept(alloc: Global, text: &str) -> Result<Table, TextRefusal>
    ensures table { IfOk result (λ table. parse_document text.now ≡ Some (table_view table)) }
    ensures refused { IfErr result (IsTextRefusal text.now) }
{
    match toml::table_from_str(alloc, text) {
        Ok(table) => Ok(table),
        Err(error) => match error.span() {
            None => Err(TextRefusal::NoMemory),
            Some(span) => Err(TextRefusal::NotToml {
                byte: span.start,
                cause: String::from_str(alloc, error.message()).ok(),
            }),
        },
    }
}

/// The table of a job file: `parse_kept`, with the error alone.
///
/// `JobError::NotToml` comes exactly where the text is not TOML. `JobError::NoMemory` comes only
/// where an allocation was refused.
pub fn parse(alloc: Global, text: &str) -> Result<Table, JobError>
    ensures table { IfOk result (λ table. parse_document text.now ≡ Some (table_view table)) }
    ensures refused { IfErr result (IsTableFault text.now) }
{
    match parse_kept(alloc, text) {
        Ok(table) => Ok(table),
        Err(refusal) => Err(refusal.error()),
    }
}

/// The values of a table's keys.
#[tactic(auto, unfolding(crate::specs::Job::job_fields))]
fn job_fields<'a>(table: &'a Table) -> Result<Job<&'a str>, JobBreach<&'a str>>
    ensures { read_lent job_lent result ≡ job_fields (table_view table.now) }
{
    let image = fields::text(table, JobTable::Job, JobKey::Image)?;
    let vlen = fields::value(table, JobTable::Job, JobKey::Vlen)?;
    let agnostic = fields::value(table, JobTable::Job, JobKey::Agnostic)?;
    let max = fields::value(table, JobTable::Job, JobKey::Max)?;
    let params = params::params_in(table)?.at;
    Ok(Job {
        image,
        vlen,
        agnostic,
        max,
        params,
    })
}

/// The values of a job's table, or the first key that breaks a rule of job files: one that the table can't have, then
/// one with a value of a wrong type or range. Each place of `param` has to be a table, with a `kind` of its own.
///
/// A job may have `image` (a path), `vlen` (128, 256 or 512), `agnostic` ("keep" or "ones"), `max` (0 to
/// 2^63 - 1) and at most eight `[[param]]` tables, each with a `kind`: "none"; "scalar", with `lo`,
/// `hi` and `value` (0 to 2^32 - 1 each); or "buffer", with `mode` ("r" or "rw"), `size` (0 to
/// 2^32 - 1), `file` and `out`. A place without a table is not used.
#[tactic(auto, unfolding(crate::specs::Job::kept_job_of))]
pub fn kept_job_in<'a>(table: &'a Table) -> Result<Job<&'a str>, JobBreach<&'a str>>
    ensures { read_lent job_lent result ≡ kept_job_of (table_view table.now) }
{
    let known = [
        JobKey::Image,
        JobKey::Vlen,
        JobKey::Agnostic,
        JobKey::Max,
        JobKey::Param,
    ];
    match fields::first_unknown(table, known.as_slice()) {
        Some(key) => Err(JobBreach::Unknown {
            table: JobTable::Job,
            key,
        }),
        None => job_fields(table),
    }
}

/// The values of a job's table, or `None` where it breaks a rule of job files.
pub fn job_in<'a>(table: &'a Table) -> Option<Job<&'a str>>
    ensures { option_map job_lent result ≡ job_of (table_view table.now) }
{
    kept_job_in(table).ok()
}

/// What `try` takes of a job's table, or `None` where the table breaks a rule of job files or lacks
/// a key that `try` needs: `image`, `vlen`, `agnostic`, `max`, each scalar's `value`, and each
/// buffer's `mode` and `file`.
pub fn try_job_in<'a>(table: &'a Table) -> Option<TryJob<&'a str>>
    ensures { option_map try_job_lent result ≡ try_job_in (table_view table.now) }
{
    needs::try_job(job_in(table)?)
}

/// What `run` takes of a job's table, or `None` where the table breaks a rule of job files or lacks
/// a key that `run` needs: `image`, `vlen`, `agnostic`, `max`, each scalar's `value`, and each
/// buffer's `file`.
pub fn run_job_in<'a>(table: &'a Table) -> Option<RunJob<&'a str>>
    ensures { option_map run_job_lent result ≡ run_job_in (table_view table.now) }
{
    needs::run_job(job_in(table)?)
}

/// What `make` takes of a job's table, or `None` where the table breaks a rule of job files or lacks
/// a key that `make` needs: `vlen`, each scalar's `lo` and `hi`, and each buffer's `mode` and `size`.
pub fn make_job_in(table: &Table) -> Option<MakeJob>
    ensures { result ≡ make_job_in (table_view table.now) }
{
    needs::make_job(job_in(table)?)
}
