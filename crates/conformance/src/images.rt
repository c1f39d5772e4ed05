//! Rows `FILE NAME` and `FILE read CERTIFICATE`: what an executable file is refused for, or its certificate.

use crate::fields::{RowError, bytes};
use crate::table::{Table, unlike};
use elf_image::{ElfError, Image};
use std::alloc::{AllocError, Global};

/// The table of images.
#[derive(Drop)]
pub struct Images;

impl Table for Images {
    fn difference(&mut self, alloc: Global, row: &str) -> Result<Option<String>, RowError> {
        let (file, expected) = row.split_once(' ').ok_or(RowError::NoRow)?;
        let file = bytes(alloc, file)?;
        let came = text_of(alloc, elf_image::read(alloc, file.as_slice()))?;
        unlike(alloc, expected, came.as_str())
    }
}

/// The reason's name, or `read` and the certificate.
fn text_of(alloc: Global, read: Result<Image, ElfError>) -> Result<String, AllocError> {
    match read {
        Err(error) => format!(in alloc; "{error:?}"),
        Ok(image) => certificate_text(alloc, image.certificate()),
    }
}

fn certificate_text(alloc: Global, certificate: Option<&[u8]>) -> Result<String, AllocError> {
    let Some(certificate) = certificate else {
        return String::from_str(alloc, "read -");
    };
    if certificate.is_empty() {
        return String::from_str(alloc, "read empty");
    }
    let mut text = String::from_str(alloc, "read ")?;
    for byte in certificate {
        text.push_str(format!(in alloc; "{byte:02x}")?.as_str())?;
    }
    Ok(text)
}
