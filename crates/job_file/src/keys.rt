//! The keys of job files, and how a table breaks the rules of them.
ghost use Rattle.std.specs.Prelude.{◌≡◌};
ghost use Rattle.job_file.specs.Keys.{key_name, key_wanted};

use std::error::Error;
use std::fmt;

/// A table of a job.
#[derive(Clone, Copy, Debug, PartialEq, Eq)]
pub enum JobTable {
    Job,
    /// The `[[param]]` table of a place.
    Param(usize),
}

/// A key of a job.
#[derive(Clone, Copy, Debug, PartialEq, Eq)]
pub enum JobKey {
    Image,
    Vlen,
    Agnostic,
    Max,
    Param,
    Kind,
    Lo,
    Hi,
    Value,
    Mode,
    Size,
    File,
    Out,
}

/// What of a table breaks the rules of job files.
#[derive(Debug, Drop)]
pub enum JobBreach<T> {
    /// The value of a key is not of its type and range.
    Wrong { table: JobTable, key: JobKey },
    /// A key that the table can't have.
    Unknown { table: JobTable, key: T },
    /// What stands at a place of `param` is no table.
    NoTable { table: JobTable },
    /// A `[[param]]` table has no `kind`.
    NoKind { table: JobTable },
    /// There are more than eight `[[param]]` tables.
    TooMany,
}

impl JobKey {
    /// The key as a job file has it.
    pub fn name(self) -> &'static str
        ensures { result.now ≡ key_name self }
    {
        match self {
            JobKey::Image => "image",
            JobKey::Vlen => "vlen",
            JobKey::Agnostic => "agnostic",
            JobKey::Max => "max",
            JobKey::Param => "param",
            JobKey::Kind => "kind",
            JobKey::Lo => "lo",
            JobKey::Hi => "hi",
            JobKey::Value => "value",
            JobKey::Mode => "mode",
            JobKey::Size => "size",
            JobKey::File => "file",
            JobKey::Out => "out",
        }
    }

    /// The values that the key may have, in words.
    pub fn wanted(self) -> &'static str
        ensures { result.now ≡ key_wanted self }
    {
        match self {
            JobKey::Image | JobKey::File | JobKey::Out => "a path",
            JobKey::Param => "at most eight tables, each [[param]]",
            JobKey::Kind => "\"none\", \"scalar\" or \"buffer\"",
            JobKey::Vlen => "128, 256 or 512",
            JobKey::Agnostic => "\"keep\" or \"ones\"",
            JobKey::Max => "a number in 0..=9223372036854775807",
            JobKey::Lo | JobKey::Hi | JobKey::Value | JobKey::Size => "a number in 0..=4294967295",
            JobKey::Mode => "\"r\" or \"rw\"",
        }
    }
}

impl fmt::Display for JobTable {
    ghost use Rattle.std.specs.Prelude.{Some};
    ghost use Rattle.job_file.specs.Keys.{table_text};

    ghost output = { λ table. Some (table_text table) };

    fn fmt<W: fmt::Write>(&self, f: &mut fmt::Formatter<W>) -> fmt::Result {
        match *self {
            JobTable::Job => write!(f, "the job"),
            JobTable::Param(place) => write!(f, "the param at place {place}"),
        }
    }
}

impl<T: fmt::Display> fmt::Display for JobBreach<T> {
    ghost use Rattle.job_file.specs.Keys.{breach_text};

    ghost output = { breach_text T.output };

    fn fmt<W: fmt::Write>(&self, f: &mut fmt::Formatter<W>) -> fmt::Result {
        match self {
            JobBreach::Wrong { table, key } => {
                let name = key.name();
                let wanted = key.wanted();
                write!(f, "not as wanted: {name} in {table}: {wanted}")
            }
            JobBreach::Unknown { table, key } => {
                write!(f, "a key that {table} can't have: {key}")
            }
            JobBreach::NoTable { table } => write!(f, "not as wanted: {table}: a table"),
            JobBreach::NoKind { table } => {
                let wanted = JobKey::Kind.wanted();
                write!(f, "{table} has no kind: {wanted}")
            }
            JobBreach::TooMany => f.write_str("wanted: at most eight param tables"),
        }
    }
}

impl<T: fmt::Debug + fmt::Display + Drop> Error for JobBreach<T> {}
