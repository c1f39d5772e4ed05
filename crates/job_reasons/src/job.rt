//! Why a job is refused: where its text is no TOML, or which key the command lacks.
ghost use Rattle.std.specs.Prelude.{◌≡◌, ◌<◌, ◌≤◌, ◌+◌, ◌^◌, IfErr, IfOk, IfSome, Some};
ghost use Rattle.std.specs.Prelude.{IfNone, length, map, take};
ghost use Rattle.std.specs.Fmt.{WritesOnOk};
ghost use Rattle.job_file.specs.Job.{breach_lent, job_lent, param_lent};
ghost use Rattle.toml.specs.Parse.{parse_document};
ghost use Rattle.toml.specs.View.{table_view};
ghost use Rattle.job_reasons.specs.Job.{IsTableReason, IsTextReason, LackNone, breach_kept};
ghost use Rattle.job_reasons.specs.Job.{is_taken, job_lacks, lacked_of, make_lacks, param_lacks};
ghost use Rattle.job_reasons.specs.Job.{place_lacks, run_lacks, try_lacks};
ghost use Rattle.job_reasons.specs.Job.{begins_character, column_behind, line_behind, lines_in};
ghost use Rattle.job_reasons.specs.Job.{cause_text, next_column as next_column_of};
ghost use Rattle.job_reasons.specs.declared.job.JobReason.TheVariants as reason;

use crate::escaped::Escaped;
use job_file::{Job, JobBreach, JobKey, JobParam, JobTable, TextRefusal, kept_job_in, parse_kept};
use std::alloc::{AllocError, Global};
use std::fmt;
use toml::Table;

/// A command that takes a job.
#[derive(Clone, Copy, PartialEq, Eq)]
pub enum Command {
    Run,
    Mon,
    Try,
    Make,
}

/// Why a job is refused.
#[derive(Drop)]
pub enum JobReason {
    /// The text is not UTF-8 from this byte on, counted from 0.
    NotUtf8(usize),
    /// The text is not TOML from this byte on, counted from 0, which stands in this line, at this character, both counted
    /// from 1. The cause is in the library's words, where there was memory to keep it.
    NotToml {
        line: usize,
        column: usize,
        byte: usize,
        cause: Option<String>,
    },
    /// The command does not take the job.
    Broken,
    /// A key that the command needs is not there.
    Missing {
        table: JobTable,
        key: JobKey,
        command: Command,
    },
    /// The table breaks a rule of job files.
    Breach(JobBreach<String>),
}

/// The key, where its value is not there.
fn lacked<T>(value: Option<T>, key: JobKey) -> Option<JobKey>
where
    T: Drop,
    ensures { result ≡ lacked_of value key }
{
    match value {
        Some(_) => None,
        None => Some(key),
    }
}

/// The first key that `try` lacks of a parameter.
fn try_lacks(param: JobParam<&str>) -> Option<JobKey>
    ensures { result ≡ try_lacks (param_lent param.entry) }
{
    match param {
        JobParam::None => None,
        JobParam::Scalar { value, .. } => lacked(value, JobKey::Value),
        JobParam::Buffer { mode, file, .. } => {
            if mode.is_none() {
                return Some(JobKey::Mode);
            }
            lacked(file, JobKey::File)
        }
    }
}

/// The first key that `run` lacks of a parameter.
fn run_lacks(param: JobParam<&str>) -> Option<JobKey>
    ensures { result ≡ run_lacks (param_lent param.entry) }
{
    match param {
        JobParam::None => None,
        JobParam::Scalar { value, .. } => lacked(value, JobKey::Value),
        JobParam::Buffer { file, .. } => lacked(file, JobKey::File),
    }
}

/// The first key that `make` lacks of a parameter.
fn make_lacks(param: JobParam<&str>) -> Option<JobKey>
    ensures { result ≡ make_lacks (param_lent param.entry) }
{
    match param {
        JobParam::None => None,
        JobParam::Scalar { lo, hi, .. } => {
            if lo.is_none() {
                return Some(JobKey::Lo);
            }
            lacked(hi, JobKey::Hi)
        }
        JobParam::Buffer { mode, size, .. } => {
            if mode.is_none() {
                return Some(JobKey::Mode);
            }
            lacked(size, JobKey::Size)
        }
    }
}

/// The first key that a command lacks of a parameter.
fn param_lacks(command: Command, param: JobParam<&str>) -> Option<JobKey>
    ensures { result ≡ param_lacks command (param_lent param.entry) }
{
    match command {
        Command::Run | Command::Mon => run_lacks(param),
        Command::Try => try_lacks(param),
        Command::Make => make_lacks(param),
    }
}

/// The first parameter without a key that a command needs, and that key.
fn params_lack(command: Command, params: [JobParam<&str>; 8]) -> Option<(usize, JobKey)>
    ensures found { IfSome result (λ m. (m.0 < 8)
        × (place_lacks command (map param_lent params.entry) m.0 ≡ Some m.1)
        × LackNone command (map param_lent params.entry) m.0) }
    ensures none { IfNone result (LackNone command (map param_lent params.entry) 8) }
{
    for place in 0..8 {
        if let Some(key) = param_lacks(command, params[place]) {
            return Some((place, key));
        }
    }
    None
}

/// The first key of a job's own table that a command lacks.
fn job_lacks(command: Command, job: &Job<&str>) -> Option<JobKey>
    ensures { result ≡ job_lacks command (job_lent job.now) }
{
    if job.vlen.is_none() {
        return Some(JobKey::Vlen);
    }
    if command == Command::Make {
        return None;
    }
    if job.image.is_none() {
        return Some(JobKey::Image);
    }
    if job.agnostic.is_none() {
        return Some(JobKey::Agnostic);
    }
    if job.max.is_none() {
        return Some(JobKey::Max);
    }
    None
}

/// Whether a command takes a job.
fn is_taken(command: Command, table: &Table) -> bool
    ensures { result ≡ is_taken command (table_view table.now) }
{
    match command {
        Command::Run | Command::Mon => job_file::run_job_in(table).is_some(),
        Command::Try => job_file::try_job_in(table).is_some(),
        Command::Make => job_file::make_job_in(table).is_some(),
    }
}

/// A breach with a text of its own.
fn kept_breach(alloc: Global, breach: JobBreach<&str>) -> Result<JobBreach<String>, AllocError>
    ensures { IfOk result (λ kept. breach_kept kept ≡ breach_lent breach.entry) }
{
    Ok(match breach {
        JobBreach::Wrong { table, key } => JobBreach::Wrong { table, key },
        JobBreach::Unknown { table, key } => JobBreach::Unknown {
            table,
            key: String::from_str(alloc, key)?,
        },
        JobBreach::NoTable { table } => JobBreach::NoTable { table },
        JobBreach::NoKind { table } => JobBreach::NoKind { table },
        JobBreach::TooMany => JobBreach::TooMany,
    })
}

/// Why a command takes no job of a table: `None` where it takes one.
///
/// # Errors
/// An allocation was refused.
pub fn table_reason(
    alloc: Global,
    command: Command,
    table: &Table,
) -> Result<Option<JobReason>, AllocError>
    ensures { IfOk result (IsTableReason command (table_view table.now)) }
{
    if is_taken(command, table) {
        return Ok(None);
    }
    let job = match kept_job_in(table) {
        Ok(job) => job,
        Err(breach) => {
            let breach = kept_breach(alloc, breach)?;
            return Ok(Some(JobReason::Breach(breach)));
        }
    };
    if let Some(key) = job_lacks(command, &job) {
        return Ok(Some(JobReason::Missing {
            table: JobTable::Job,
            key,
            command,
        }));
    }
    match params_lack(command, job.params) {
        Some((place, key)) => Ok(Some(JobReason::Missing {
            table: JobTable::Param(place),
            key,
            command,
        })),
        None => Ok(Some(JobReason::Broken)),
    }
}

/// How many lines end in these bytes.
fn lines_in(bytes: &[u8]) -> usize
    ensures value { result ≡ lines_in bytes.now }
    ensures few { result ≤ length bytes.now }
{
    bytes.iter().filter(|byte| **byte == b'\n').count()
}

/// The line, counted from 1, of what stands behind these bytes.
fn line_behind(bytes: &[u8]) -> usize
    ensures { result ≡ line_behind bytes.now }
{
    lines_in(bytes) + 1
}

/// Whether a byte begins a character.
fn begins_character(byte: u8) -> bool
    ensures { result ≡ begins_character byte }
{
    byte < 0x80 || 0xc0 <= byte
}

/// The column of what stands behind one byte more.
#[tactic(auto, unfolding(crate::specs::Job::next_column))]
fn next_column(column: usize, byte: u8) -> usize
    requires { column < 2 ^ 63 }
    ensures value { result ≡ next_column_of column byte }
    ensures few { result ≤ column + 1 }
{
    if byte == b'\n' {
        1
    } else if begins_character(byte) {
        column + 1
    } else {
        column
    }
}

/// The column, in characters and counted from 1, of what stands behind these bytes.
#[tactic(auto, using(std::proofs::lemmas::List::Sums::fold_more))]
fn column_behind(bytes: &[u8]) -> usize
    ensures { result ≡ column_behind bytes.now }
{
    let mut column = 1;
    for byte in bytes {
        column = next_column(column, *byte);
    }
    column
}

/// Where a text is not TOML, and why.
fn told_place(text: &str, byte: usize, cause: Option<String>) -> JobReason
    requires { byte ≤ length text.now }
    ensures { result ≡ reason.NotToml (line_behind (take byte text.now))
        (column_behind (take byte text.now)) byte cause }
{
    let before = &text.as_bytes()[..byte];
    JobReason::NotToml {
        line: line_behind(before),
        column: column_behind(before),
        byte,
        cause,
    }
}

/// The table that the bytes of a job file spell, or the reason why they spell none. That is `None` where memory ran out.
pub fn table_in(alloc: Global, bytes: &[u8]) -> Result<Table, Option<JobReason>>
    ensures table { IfOk result (λ table. parse_document bytes.now ≡ Some (table_view table)) }
    ensures refused { IfErr result (IsTextReason bytes.now) }
{
    let text = match str::from_utf8(bytes) {
        Ok(text) => text,
        Err(error) => return Err(Some(JobReason::NotUtf8(error.valid_up_to()))),
    };
    match parse_kept(alloc, text) {
        Ok(table) => Ok(table),
        Err(TextRefusal::NotToml { byte, cause }) => Err(Some(told_place(text, byte, cause))),
        Err(TextRefusal::NoMemory) => Err(None),
    }
}

impl fmt::Display for Command {
    ghost use Rattle.std.specs.Prelude.{Some};
    ghost use Rattle.job_reasons.specs.Job.{command_name};

    ghost output = { λ command. Some (command_name command) };

    fn fmt<W: fmt::Write>(&self, f: &mut fmt::Formatter<W>) -> fmt::Result {
        f.write_str(match self {
            Command::Run => "run",
            Command::Mon => "mon",
            Command::Try => "try",
            Command::Make => "make",
        })
    }
}

/// Writes the line of a cause, where there is one.
fn write_cause<W: fmt::Write>(cause: &Option<String>, f: &mut fmt::Formatter<W>) -> fmt::Result
    ensures { WritesOnOk W.write_str_gives f.old result (cause_text cause.now) f.new }
{
    match cause {
        Some(cause) => {
            let cause = Escaped(cause.as_str());
            writeln!(f, "  cause: {cause}")
        }
        None => Ok(()),
    }
}

impl fmt::Display for JobReason {
    ghost use Rattle.std.specs.Prelude.{Some};
    ghost use Rattle.job_reasons.specs.Job.{job_text};

    ghost output = { λ reason. Some (job_text reason) };

    fn fmt<W: fmt::Write>(&self, f: &mut fmt::Formatter<W>) -> fmt::Result {
        match self {
            JobReason::NotUtf8(byte) => writeln!(f, "  not UTF-8 from byte {byte} on"),
            JobReason::NotToml {
                line,
                column,
                byte,
                cause,
            } => {
                writeln!(
                    f,
                    "  not TOML from byte {byte} on: line {line}, column {column}"
                )?;
                write_cause(cause, f)
            }
            JobReason::Broken => {
                writeln!(
                    f,
                    "  wanted: no other keys, and each value of its type and range"
                )
            }
            JobReason::Missing {
                table,
                key,
                command,
            } => {
                let (name, wanted) = (key.name(), key.wanted());
                write!(f, "  {command} needs {name}")?;
                writeln!(f, " in {table}: {wanted}")
            }
            JobReason::Breach(JobBreach::Unknown { table, key }) => {
                let table = *table;
                let key = Escaped(key.as_str());
                let breach = JobBreach::Unknown { table, key };
                writeln!(f, "  {breach}")
            }
            JobReason::Breach(breach) => writeln!(f, "  {breach}"),
        }
    }
}
