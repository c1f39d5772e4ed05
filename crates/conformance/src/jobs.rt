//! Rows `TEXT = ANSWER`: what the text of a job file says.

use crate::fields::{RowError, bytes};
use crate::table::{Table, unlike};
use job_file::{Job, JobError, JobParam, job_in, parse, run_job_in, try_job_in};
use region_mem::Mode;
use std::alloc::Global;
use std::fmt;
use vreg_groups::{Agnostic, Vlen};

/// The table of job files.
#[derive(Drop)]
pub struct Jobs;

/// A number that may be missing.
#[derive(Drop)]
struct Number<T>(Option<T>);

/// A text that may be missing: `t` and its bytes in hexadecimal.
#[derive(Drop)]
struct Text<'a>(Option<&'a str>);

/// A parameter as a row has it.
#[derive(Drop)]
struct ParamText<'a>(JobParam<&'a str>);

impl<T: fmt::Display> fmt::Display for Number<T> {
    fn fmt<W: fmt::Write>(&self, f: &mut fmt::Formatter<W>) -> fmt::Result {
        match &self.0 {
            Some(value) => write!(f, "{value}"),
            None => write!(f, "-"),
        }
    }
}

impl fmt::Display for Text<'_> {
    fn fmt<W: fmt::Write>(&self, f: &mut fmt::Formatter<W>) -> fmt::Result {
        let Some(text) = self.0 else {
            return write!(f, "-");
        };
        write!(f, "t")?;
        for byte in text.as_bytes() {
            write!(f, "{byte:02x}")?;
        }
        Ok(())
    }
}

fn mode_name(mode: Option<Mode>) -> &'static str {
    match mode {
        None => "-",
        Some(Mode::Read) => "r",
        Some(Mode::ReadWrite) => "rw",
    }
}

impl fmt::Display for ParamText<'_> {
    fn fmt<W: fmt::Write>(&self, f: &mut fmt::Formatter<W>) -> fmt::Result {
        match &self.0 {
            JobParam::None => write!(f, " none"),
            JobParam::Scalar { lo, hi, value } => {
                let (lo, hi, value) = (Number(*lo), Number(*hi), Number(*value));
                write!(f, " scalar,{lo},{hi},{value}")
            }
            JobParam::Buffer {
                mode,
                size,
                file,
                out,
            } => {
                let (mode, size) = (mode_name(*mode), Number(*size));
                let (file, out) = (Text(*file), Text(*out));
                write!(f, " buffer,{mode},{size},{file},{out}")
            }
        }
    }
}

fn bits(vlen: Option<Vlen>) -> &'static str {
    match vlen {
        None => "-",
        Some(Vlen::V128) => "128",
        Some(Vlen::V256) => "256",
        Some(Vlen::V512) => "512",
    }
}

fn setting_name(setting: Option<Agnostic>) -> &'static str {
    match setting {
        None => "-",
        Some(Agnostic::Keep) => "keep",
        Some(Agnostic::Ones) => "ones",
    }
}

impl fmt::Display for Shown<'_> {
    fn fmt<W: fmt::Write>(&self, f: &mut fmt::Formatter<W>) -> fmt::Result {
        let job = &self.0;
        let (vlen, agnostic) = (bits(job.vlen), setting_name(job.agnostic));
        let (image, max) = (Text(job.image), Number(job.max));
        write!(f, "job {image} {vlen} {agnostic} {max}")?;
        for param in &job.params {
            let text = ParamText(*param);
            write!(f, "{text}")?;
        }
        Ok(())
    }
}

/// A job as a row has it, without what the subcommands find.
#[derive(Drop)]
struct Shown<'a>(Job<&'a str>);

/// The row's answer for a text.
fn answer(alloc: Global, text: &str) -> Result<String, RowError> {
    let table = match parse(alloc, text) {
        Ok(table) => table,
        Err(JobError::NoMemory) => return Err(RowError::NoMemory),
        Err(error) => return Ok(format!(in alloc; "{error:?}")?),
    };
    let Some(job) = job_in(&table) else {
        return Ok(format!(in alloc; "BadKey")?);
    };
    let shown = Shown(job);
    let tried = u8::from(try_job_in(&table).is_some());
    let run = u8::from(run_job_in(&table).is_some());
    Ok(format!(in alloc; "{shown} {tried} {run}")?)
}

impl Table for Jobs {
    fn difference(&mut self, alloc: Global, row: &str) -> Result<Option<String>, RowError> {
        let (text, expected) = row.split_once(" = ").ok_or(RowError::NoRow)?;
        let text = bytes(alloc, if text == "empty" { "" } else { text })?;
        let text = std::str::from_utf8(text.as_slice()).map_err(|_| RowError::NoRow)?;
        let came = answer(alloc, text)?;
        unlike(alloc, expected, came.as_str())
    }
}
