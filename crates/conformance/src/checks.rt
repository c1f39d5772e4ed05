//! Rows `VLENB FILE = ANSWER`: what the check of an image against the certificate in its note answers.

use crate::fields::{RowError, bytes, next, vlen};
use crate::table::{Table, unlike};
use block_checker::{Accepted, CheckError, check};
use cert_note::{Budget, CertError};
use elf_image::{ElfError, Image};
use std::alloc::{AllocError, Global};
use std::fmt;
use vreg_groups::Vlen;

/// The table of checks.
#[derive(Drop)]
pub struct Checks;

/// Why a file is not accepted.
#[derive(Clone, Copy)]
pub enum Refusal {
    Image(ElfError),
    NoCertificate,
    Certificate(CertError),
    Check(CheckError),
}

impl From<ElfError> for Refusal {
    fn from(error: ElfError) -> Refusal {
        Refusal::Image(error)
    }
}

impl From<CertError> for Refusal {
    fn from(error: CertError) -> Refusal {
        Refusal::Certificate(error)
    }
}

impl fmt::Display for Refusal {
    fn fmt<W: fmt::Write>(&self, f: &mut fmt::Formatter<W>) -> fmt::Result {
        match self {
            Refusal::Image(error) => write!(f, "image {error:?}"),
            Refusal::NoCertificate => write!(f, "no certificate"),
            Refusal::Certificate(error) => write!(f, "certificate {error:?}"),
            Refusal::Check(error) => {
                let name = error.name();
                match error.address() {
                    Some(pc) => write!(f, "{name} {pc:08x}"),
                    None => write!(f, "{name}"),
                }
            }
        }
    }
}

fn certificate_of(image: &Image) -> Result<&[u8], Refusal> {
    image.certificate().ok_or(Refusal::NoCertificate)
}

/// The image of a file with the certificate in its note, where they pass the check: at a length of vector registers, or at
/// the certificate's own where that is `None`.
pub(crate) fn accept(alloc: Global, file: &[u8], vlen: Option<Vlen>) -> Result<Accepted, Refusal> {
    let image = elf_image::read(alloc, file)?;
    let certificate = cert_note::read(alloc, certificate_of(&image)?)?;
    let vlen = vlen.unwrap_or(certificate.contents().vlen);
    match check(alloc, image, certificate, vlen) {
        Ok(accepted) => Ok(accepted),
        Err((error, _image, _certificate)) => Err(Refusal::Check(error)),
    }
}

/// `accepted` and a budget, with its second factor and register where it has these.
fn budget_text(alloc: Global, budget: Budget) -> Result<String, AllocError> {
    let first = format!(in alloc;
        "accepted {} {} {}",
        budget.constant, budget.factor, budget.register
    )?;
    match budget.second_factor {
        0 => Ok(first),
        factor => format!(in alloc; "{first} {factor} {}", budget.second_register),
    }
}

/// The name of the refusal, or `accepted` and the budget of the block at the entry.
pub(crate) fn text_of(
    alloc: Global,
    checked: Result<Accepted, Refusal>,
) -> Result<String, AllocError> {
    match checked {
        Ok(accepted) => budget_text(alloc, accepted.budget()),
        Err(refusal) => refusal.to_string(alloc),
    }
}

impl Table for Checks {
    fn difference(&mut self, alloc: Global, row: &str) -> Result<Option<String>, RowError> {
        let (mut fields, expected) = row.split_once(" = ").ok_or(RowError::NoRow)?;
        let vlen = vlen(next(&mut fields))?;
        let file = bytes(alloc, next(&mut fields))?;
        let came = text_of(alloc, accept(alloc, file.as_slice(), Some(vlen)))?;
        unlike(alloc, expected, came.as_str())
    }
}
