//! Reads the values of a table's keys.
ghost use Rattle.std.specs.Prelude.{◌≡◌, IfErr, IfOk, None, Some, option_map};
ghost use Rattle.toml.specs.Data.{as_str, get_member};
ghost use Rattle.toml.specs.View.{table_view, view};
ghost use Rattle.job_file.specs.Job.{field, first_unknown, is_one_of, read_lent};
ghost use Rattle.job_file.specs.Keys.{key_name};
ghost use Rattle.job_file.specs.declared.keys.JobBreach.TheVariants as breach;

use crate::keys::{JobBreach, JobKey, JobTable};
use region_mem::Mode;
use toml::{Table, Value};
use vreg_groups::{Agnostic, Vlen};

/// What the value of a key can be read as.
pub trait KeyValue {
    ghost use Rattle.std.specs.Prelude.{◌≡◌, Option};
    ghost use Rattle.toml.specs.Data.{Data};
    ghost use Rattle.toml.specs.View.{view};

    // what is read of a value, where it is of the type and range
    ghost reads: { Data → Option Self };

    fn read(value: &Value) -> Option<Self>
        ensures { result ≡ reads (view value.now) };
}

/// `lo`, `hi`, `value` and `size`.
impl KeyValue for u32 {
    ghost use Rattle.job_file.specs.Job.{word_of};

    ghost reads = { word_of };

    #[tactic(auto, unfolding(crate::specs::Job::word_of))]
    fn read(value: &Value) -> Option<u32> {
        let number = value.as_integer()?;
        u32::try_from(number).ok()
    }
}

/// `max`.
impl KeyValue for u64 {
    ghost use Rattle.job_file.specs.Job.{max_of};

    ghost reads = { max_of };

    #[tactic(auto, unfolding(crate::specs::Job::max_of))]
    fn read(value: &Value) -> Option<u64> {
        let number = value.as_integer()?;
        u64::try_from(number).ok()
    }
}

/// `vlen`.
impl KeyValue for Vlen {
    ghost use Rattle.job_file.specs.Job.{vlen_of};

    ghost reads = { vlen_of };

    #[tactic(auto, unfolding(crate::specs::Job::vlen_of))]
    fn read(value: &Value) -> Option<Vlen> {
        match u32::read(value)? {
            128 => Some(Vlen::V128),
            256 => Some(Vlen::V256),
            512 => Some(Vlen::V512),
            _ => None,
        }
    }
}

/// `agnostic`.
impl KeyValue for Agnostic {
    ghost use Rattle.job_file.specs.Job.{agnostic_of};

    ghost reads = { agnostic_of };

    #[tactic(auto, unfolding(crate::specs::Job::agnostic_of))]
    fn read(value: &Value) -> Option<Agnostic> {
        match value.as_str()? {
            "keep" => Some(Agnostic::Keep),
            "ones" => Some(Agnostic::Ones),
            _ => None,
        }
    }
}

/// `mode`.
impl KeyValue for Mode {
    ghost use Rattle.job_file.specs.Job.{mode_of};

    ghost reads = { mode_of };

    #[tactic(auto, unfolding(crate::specs::Job::mode_of))]
    fn read(value: &Value) -> Option<Mode> {
        match value.as_str()? {
            "r" => Some(Mode::Read),
            "rw" => Some(Mode::ReadWrite),
            _ => None,
        }
    }
}

/// The value at a key.
pub fn at<'a>(table: &'a Table, key: JobKey) -> Option<&'a Value>
    ensures { option_map (λ v. view v.now) result
        ≡ get_member (key_name key) (table_view table.now) }
{
    table.get(key.name())
}

/// The value, where it is there: that of this key is wrong where it is not.
pub fn wanted<'a, T>(
    value: Option<T>,
    table: JobTable,
    key: JobKey,
) -> Result<T, JobBreach<&'a str>>
where
    T: Drop,
    ensures there { IfOk result (λ v. value ≡ Some v) }
    ensures wrong { IfErr result (λ b. (value ≡ None) × (b ≡ breach.Wrong table key)) }
{
    match value {
        Some(value) => Ok(value),
        None => Err(JobBreach::Wrong { table, key }),
    }
}

/// The value of a key, where the key is there.
pub fn value<'a, T: KeyValue + Drop>(
    table: &'a Table,
    place: JobTable,
    key: JobKey,
) -> Result<Option<T>, JobBreach<&'a str>>
    ensures { read_lent (λ v. v) result ≡ field T.reads place key (table_view table.now) }
{
    match at(table, key) {
        Some(value) => Ok(Some(wanted(T::read(value), place, key)?)),
        None => Ok(None),
    }
}

/// A text, where the key is there.
pub fn text<'a>(
    table: &'a Table,
    place: JobTable,
    key: JobKey,
) -> Result<Option<&'a str>, JobBreach<&'a str>>
    ensures { read_lent (option_map (λ s. s.now)) result
        ≡ field as_str place key (table_view table.now) }
{
    match at(table, key) {
        Some(value) => Ok(Some(wanted(value.as_str(), place, key)?)),
        None => Ok(None),
    }
}

fn is_one_of(known: &[JobKey], name: &str) -> bool
    ensures { result ≡ is_one_of known.now name.now }
{
    known.iter().any(|key| key.name() == name)
}

/// The table's first key that is none of these.
pub fn first_unknown<'a>(table: &'a Table, known: &[JobKey]) -> Option<&'a str>
    ensures { option_map (λ name. name.now) result
        ≡ first_unknown known.now (table_view table.now) }
{
    for key in table.keys() {
        if !is_one_of(known, key.as_str()) {
            return Some(key.as_str());
        }
    }
    None
}
