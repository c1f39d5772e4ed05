//! Why no certificate was made.
ghost use Rattle.std.specs.Prelude.{◌≡◌};
ghost use Rattle.cert_maker.specs.Make.{address_of, name_of};
ghost use Rattle.cert_maker.specs.declared.errors.MakeError.TheVariants.{NoMemory};

use region_mem::Digits;
use std::alloc::{AllocError, AllocFailed};
use std::error::Error;
use std::fmt;

/// Why no certificate was made. `NoMemory` alone says nothing of the image.
#[derive(Clone, Copy, Debug, PartialEq, Eq)]
pub enum MakeError {
    /// The words from the entry on are not a loop of the class: the address is that of the first word that breaks a
    /// condition together with those before it.
    NotALoopOfTheClass(u32),
    /// An allocation was refused.
    NoMemory,
}

impl MakeError {
    /// The error's name, as it stands above, without its address.
    pub fn name(self) -> &'static str
        ensures { result.now ≡ name_of self }
    {
        match self {
            MakeError::NotALoopOfTheClass(_) => "NotALoopOfTheClass",
            MakeError::NoMemory => "NoMemory",
        }
    }

    /// The address that the error carries: that of the first word that does not fit.
    pub fn address(self) -> Option<u32>
        ensures { result ≡ address_of self }
    {
        match self {
            MakeError::NotALoopOfTheClass(address) => Some(address),
            MakeError::NoMemory => None,
        }
    }
}

impl fmt::Display for MakeError {
    ghost use Rattle.std.specs.Prelude.{Some};
    ghost use Rattle.cert_maker.specs.Make.{error_text};

    ghost output = { λ error. Some (error_text error) };

    fn fmt<W: fmt::Write>(&self, f: &mut fmt::Formatter<W>) -> fmt::Result {
        match self {
            MakeError::NotALoopOfTheClass(address) => {
                write!(f, "no loop of the class at {}", Digits(u64::from(*address)))
            }
            MakeError::NoMemory => write!(f, "out of memory"),
        }
    }
}

impl Error for MakeError {}

impl From<AllocError> for MakeError {
    ghost from_gives = { λ _ e. e ≡ NoMemory };

    fn from(_e: AllocError) -> MakeError {
        MakeError::NoMemory
    }
}

impl<T: Drop> From<AllocFailed<T>> for MakeError {
    ghost from_gives = { λ _ e. e ≡ NoMemory };

    fn from(_e: AllocFailed<T>) -> MakeError {
        MakeError::NoMemory
    }
}
