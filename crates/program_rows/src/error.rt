//! Why a case is not tried.
use hex::FromHexError;
use std::alloc::{AllocError, AllocFailed};
use std::fmt;

/// Why a case was not tried.
#[derive(Clone, Copy)]
pub(crate) enum CaseError {
    /// Its lines are not of the form of these tables.
    NoCase,
    /// Memory was refused.
    NoMemory,
}

impl fmt::Display for CaseError {
    fn fmt<W: fmt::Write>(&self, f: &mut fmt::Formatter<W>) -> fmt::Result {
        f.write_str(match self {
            CaseError::NoCase => "no case of these tables",
            CaseError::NoMemory => "out of memory",
        })
    }
}

impl From<AllocError> for CaseError {
    fn from(_error: AllocError) -> CaseError {
        CaseError::NoMemory
    }
}

impl<T: Drop> From<AllocFailed<T>> for CaseError {
    fn from(_error: AllocFailed<T>) -> CaseError {
        CaseError::NoMemory
    }
}

impl From<FromHexError> for CaseError {
    fn from(error: FromHexError) -> CaseError {
        match error {
            FromHexError::InvalidHexCharacter { c: _, index: _ }
            | FromHexError::OddLength
            | FromHexError::InvalidStringLength => CaseError::NoCase,
            FromHexError::OutOfMemory => CaseError::NoMemory,
        }
    }
}
