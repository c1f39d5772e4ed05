//! The fields of a row.

use hex::{FromHexError, decode};
use std::alloc::{AllocError, AllocFailed, Global};
use thiserror::Error;
use vreg_groups::{Agnostic, Vlen};

/// Why a row was not tried.
#[derive(Clone, Copy, Debug, PartialEq, Eq, Error)]
pub enum RowError {
    /// The text is not of the table's form.
    #[error("no row of this table")]
    NoRow,
    /// Memory was refused.
    #[error("out of memory")]
    NoMemory,
}

impl From<AllocError> for RowError {
    fn from(_error: AllocError) -> RowError {
        RowError::NoMemory
    }
}

impl<T: Drop> From<AllocFailed<T>> for RowError {
    fn from(_error: AllocFailed<T>) -> RowError {
        RowError::NoMemory
    }
}

impl From<FromHexError> for RowError {
    fn from(error: FromHexError) -> RowError {
        match error {
            FromHexError::InvalidHexCharacter { c: _, index: _ }
            | FromHexError::OddLength
            | FromHexError::InvalidStringLength => RowError::NoRow,
            FromHexError::OutOfMemory => RowError::NoMemory,
        }
    }
}

/// Takes the next field off a row.
pub(crate) fn next<'a>(row: &mut &'a str) -> &'a str {
    let (field, rest) = row.split_once(' ').unwrap_or((*row, ""));
    *row = rest;
    field
}

/// A number in hex digits.
pub(crate) fn hex(text: &str) -> Result<u32, RowError> {
    u32::from_str_radix(text, 16).map_err(|_| RowError::NoRow)
}

/// A number in decimal digits.
pub(crate) fn decimal(text: &str) -> Result<u32, RowError> {
    text.parse().map_err(|_| RowError::NoRow)
}

/// Whether a digit is 1, and not 0.
pub(crate) fn flag(text: &str) -> Result<bool, RowError> {
    match text {
        "0" => Ok(false),
        "1" => Ok(true),
        _ => Err(RowError::NoRow),
    }
}

/// VLEN, by its bytes.
pub(crate) fn vlen(text: &str) -> Result<Vlen, RowError> {
    match text {
        "16" => Ok(Vlen::V128),
        "32" => Ok(Vlen::V256),
        "64" => Ok(Vlen::V512),
        _ => Err(RowError::NoRow),
    }
}

/// The setting for agnostic elements.
pub(crate) fn setting(text: &str) -> Result<Agnostic, RowError> {
    match text {
        "keep" => Ok(Agnostic::Keep),
        "ones" => Ok(Agnostic::Ones),
        _ => Err(RowError::NoRow),
    }
}

/// Bytes of two hex digits each, the first one first, or `HEX+N` with N zeros behind them.
pub(crate) fn bytes(alloc: Global, text: &str) -> Result<Vec<u8>, RowError> {
    let Some((text, zeros)) = text.split_once('+') else {
        return Ok(decode(alloc, text)?);
    };
    let mut bytes = decode(alloc, text)?;
    for _ in 0..decimal(zeros)? {
        bytes.push(0)?;
    }
    Ok(bytes)
}
