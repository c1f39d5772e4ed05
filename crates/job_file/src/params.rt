//! Reads the `[[param]]` tables of a job.
ghost use Rattle.std.specs.Prelude.{◌≡◌, map, option_map};
ghost use Rattle.toml.specs.Data.{as_str, get_item};
ghost use Rattle.toml.specs.View.{array_view, table_view, view};
ghost use Rattle.job_file.specs.Job.{buffer_fields, kind_in, kind_keys, kind_of};
ghost use Rattle.job_file.specs.Job.{no_params, param_at, param_lent, param_of};
ghost use Rattle.job_file.specs.Job.{param_of_kind, params_in, params_of, read_lent, scalar_fields};
ghost use Rattle.job_file.specs.Job.{table_of};

use crate::fields;
use crate::keys::{JobBreach, JobKey, JobTable};
use crate::values::{JobParam, Places};
use toml::value::Array;
use toml::{Table, Value};

/// What `kind` says of a parameter.
#[derive(Clone, Copy)]
pub enum Kind {
    None,
    Scalar,
    Buffer,
}

/// `kind`.
#[tactic(auto, unfolding(crate::specs::Job::kind_of))]
fn kind_of(value: &Value) -> Option<Kind>
    ensures { result ≡ kind_of (view value.now) }
{
    match value.as_str()? {
        "none" => Some(Kind::None),
        "scalar" => Some(Kind::Scalar),
        "buffer" => Some(Kind::Buffer),
        _ => None,
    }
}

/// The kind of a table, which has to have one.
fn kind_in<'a>(table: &'a Table, place: JobTable) -> Result<Kind, JobBreach<&'a str>>
    ensures { read_lent (λ kind. kind) result ≡ kind_in place (table_view table.now) }
{
    let value = fields::at(table, JobKey::Kind).ok_or(JobBreach::NoKind { table: place })?;
    fields::wanted(kind_of(value), place, JobKey::Kind)
}

/// The keys that a table of a kind may have.
fn kind_keys(kind: Kind) -> &'static [JobKey]
    ensures { result.now ≡ kind_keys kind }
{
    match kind {
        Kind::None => &[JobKey::Kind],
        Kind::Scalar => &[JobKey::Kind, JobKey::Lo, JobKey::Hi, JobKey::Value],
        Kind::Buffer => &[
            JobKey::Kind,
            JobKey::Mode,
            JobKey::Size,
            JobKey::File,
            JobKey::Out,
        ],
    }
}

/// The values of a table of kind "scalar".
fn scalar<'a>(table: &'a Table, place: JobTable) -> Result<JobParam<&'a str>, JobBreach<&'a str>>
    ensures { read_lent param_lent result ≡ scalar_fields place (table_view table.now) }
{
    let lo = fields::value(table, place, JobKey::Lo)?;
    let hi = fields::value(table, place, JobKey::Hi)?;
    let value = fields::value(table, place, JobKey::Value)?;
    Ok(JobParam::Scalar { lo, hi, value })
}

/// The values of a table of kind "buffer".
fn buffer<'a>(table: &'a Table, place: JobTable) -> Result<JobParam<&'a str>, JobBreach<&'a str>>
    ensures { read_lent param_lent result ≡ buffer_fields place (table_view table.now) }
{
    let mode = fields::value(table, place, JobKey::Mode)?;
    let size = fields::value(table, place, JobKey::Size)?;
    let file = fields::text(table, place, JobKey::File)?;
    let out = fields::text(table, place, JobKey::Out)?;
    Ok(JobParam::Buffer {
        mode,
        size,
        file,
        out,
    })
}

/// A table of a kind.
#[tactic(auto, unfolding(crate::specs::Job::param_of_kind, crate::specs::Job::param_fields))]
fn param_of_kind<'a>(
    table: &'a Table,
    place: JobTable,
    kind: Kind,
) -> Result<JobParam<&'a str>, JobBreach<&'a str>>
    ensures { read_lent param_lent result ≡ param_of_kind place (table_view table.now) kind }
{
    match fields::first_unknown(table, kind_keys(kind)) {
        Some(key) => Err(JobBreach::Unknown { table: place, key }),
        None => match kind {
            Kind::None => Ok(JobParam::None),
            Kind::Scalar => scalar(table, place),
            Kind::Buffer => buffer(table, place),
        },
    }
}

/// The table at a place of `param`, where each has to be one.
fn table_of<'a>(value: &'a Value, place: JobTable) -> Result<&'a Table, JobBreach<&'a str>>
    ensures { read_lent (λ table. table_view table.now) result ≡ table_of place (view value.now) }
{
    value.as_table().ok_or(JobBreach::NoTable { table: place })
}

/// One `[[param]]` table.
#[tactic(auto, unfolding(crate::specs::Job::param_of))]
fn param_of<'a>(value: &'a Value, place: JobTable) -> Result<JobParam<&'a str>, JobBreach<&'a str>>
    ensures { read_lent param_lent result ≡ param_of place (view value.now) }
{
    let table = table_of(value, place)?;
    let kind = kind_in(table, place)?;
    param_of_kind(table, place, kind)
}

fn item<'a>(items: &'a Array, place: usize) -> Option<&'a Value>
    ensures { option_map (λ v. view v.now) result ≡ get_item place (array_view items.now) }
{
    items.get(place)
}

/// The parameter at a place.
#[tactic(auto, unfolding(crate::specs::Job::param_at))]
fn param_at<'a>(items: &'a Array, place: usize) -> Result<JobParam<&'a str>, JobBreach<&'a str>>
    ensures { read_lent param_lent result ≡ param_at (array_view items.now) place }
{
    match item(items, place) {
        Some(value) => param_of(value, JobTable::Param(place)),
        None => Ok(JobParam::None),
    }
}

/// Eight places that are not used.
fn no_params<'a>() -> [JobParam<&'a str>; 8]
    ensures { map param_lent result ≡ no_params }
{
    [JobParam::None; 8]
}

/// The parameters at the eight places.
#[tactic(auto, unfolding(crate::specs::Job::params_of))]
fn params_of<'a>(items: &'a Array) -> Result<Places<JobParam<&'a str>>, JobBreach<&'a str>>
    ensures { read_lent (λ params. map param_lent params.at) result
        ≡ params_of (array_view items.now) }
{
    if item(items, 8).is_some() {
        return Err(JobBreach::TooMany);
    }
    let mut params = no_params();
    for place in 0..8 {
        params[place] = param_at(items, place)?;
    }
    Ok(Places { at: params })
}

/// The parameters of a job's table.
#[tactic(auto, unfolding(crate::specs::Job::params_in))]
pub fn params_in<'a>(table: &'a Table) -> Result<Places<JobParam<&'a str>>, JobBreach<&'a str>>
    ensures { read_lent (λ params. map param_lent params.at) result
        ≡ params_in (table_view table.now) }
{
    match fields::at(table, JobKey::Param) {
        Some(value) => {
            let items = fields::wanted(value.as_array(), JobTable::Job, JobKey::Param)?;
            params_of(items)
        }
        None => Ok(Places { at: no_params() }),
    }
}
