//! Rows `VLENB P0 .. P7 FILE = ANSWER`: the certificate that is made of an image for these parameters, and what the check of
//! the file with it answers.

use crate::checks::{accept, text_of};
use crate::fields::{RowError, bytes, decimal, hex, next, vlen};
use crate::runs::buffer_text;
use crate::table::{Table, unlike};
use cert_maker::{MakeError, make};
use cert_note::{Certificate, write};
use elf_image::attach;
use hex::encode;
use region_mem::{Param, Parameters};
use std::alloc::Global;
use vreg_groups::Vlen;

/// The table of certificates that are made.
#[derive(Drop)]
pub struct Makes;

/// A parameter: `-`, `sHHHHHHHH:HHHHHHHH`, `rN` or `wN`.
fn parameter(field: &str) -> Result<Param, RowError> {
    if field == "-" {
        return Ok(Param::None);
    }
    if let Some(ends) = field.strip_prefix("s") {
        let (lo, hi) = ends.split_once(':').ok_or(RowError::NoRow)?;
        let (lo, hi) = (hex(lo)?, hex(hi)?);
        return Ok(Param::Scalar { lo, hi });
    }
    let (mode, size) = buffer_text(field).ok_or(RowError::NoRow)?;
    let size = decimal(size)?;
    Ok(Param::Buffer { mode, size })
}

/// Takes the parameters of all eight places off a row.
fn parameters(fields: &mut &str) -> Result<Parameters, RowError> {
    let mut params = [Param::None; 8];
    for param in &mut params {
        *param = parameter(next(fields))?;
    }
    Parameters::new(params).ok_or(RowError::NoRow)
}

/// The certificate in hexadecimal, and what the check of the file that it is attached to answers.
fn made(
    alloc: Global,
    file: &[u8],
    certificate: &Certificate,
    vlen: Vlen,
) -> Result<String, RowError> {
    let certificate = write(alloc, certificate)?;
    let spelled = encode(alloc, certificate.as_slice())?;
    let checked = match attach(alloc, file, certificate.as_slice()) {
        Ok(file) => accept(alloc, file.as_slice(), Some(vlen)),
        Err(error) => Err(error.into()),
    };
    let checked = text_of(alloc, checked)?;
    Ok(format!(in alloc; "made {spelled} {checked}")?)
}

/// The row's answer: what was made, or the name of the error and the address of the first word that does not fit.
fn answer(
    alloc: Global,
    file: &[u8],
    parameters: &Parameters,
    vlen: Vlen,
) -> Result<String, RowError> {
    let image = match elf_image::read(alloc, file) {
        Ok(image) => image,
        Err(error) => return Ok(error.to_string(alloc)?),
    };
    match make(alloc, &image, parameters, vlen) {
        Ok(certificate) => made(alloc, file, &certificate, vlen),
        Err(MakeError::NoMemory) => Err(RowError::NoMemory),
        Err(error @ MakeError::NotALoopOfTheClass(address)) => {
            let name = error.name();
            Ok(format!(in alloc; "{name} {address:08x}")?)
        }
    }
}

impl Table for Makes {
    fn difference(&mut self, alloc: Global, row: &str) -> Result<Option<String>, RowError> {
        let (mut fields, expected) = row.split_once(" = ").ok_or(RowError::NoRow)?;
        let vlen = vlen(next(&mut fields))?;
        let parameters = parameters(&mut fields)?;
        let file = bytes(alloc, next(&mut fields))?;
        let came = answer(alloc, file.as_slice(), &parameters, vlen)?;
        unlike(alloc, expected, came.as_str())
    }
}
