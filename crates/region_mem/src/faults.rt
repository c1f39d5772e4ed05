//! What stops a run, and the rights that an access asks for.
ghost use Rattle.std.specs.Prelude.{◌≡◌};
ghost use Rattle.region_mem.specs.Faults.{name_of, number_of, words_of};

use crate::digits::Digits;
use std::error::Error;
use std::fmt;

/// What an access asks of each byte.
#[derive(Clone, Copy, PartialEq, Eq)]
pub enum Right {
    Read,
    Write,
    Fetch,
}

/// Why an instruction could not be executed. An instruction that faults changes nothing.
#[derive(Clone, Copy, Debug, PartialEq, Eq)]
pub enum Fault {
    /// The word at pc means nothing, or is not legal in this state.
    Illegal(u32),
    /// The word at this pc may not be fetched.
    FetchFault(u32),
    /// A load from this address is not permitted.
    LoadFault(u32),
    /// A store to this address is not permitted.
    StoreFault(u32),
    /// A jump was taken to this address, which is no multiple of 4.
    JumpMisaligned(u32),
}

impl Fault {
    /// The fault's name, as it stands above, without its number.
    pub fn name(self) -> &'static str
        ensures { result.now ≡ name_of self }
    {
        match self {
            Fault::Illegal(_) => "Illegal",
            Fault::FetchFault(_) => "FetchFault",
            Fault::LoadFault(_) => "LoadFault",
            Fault::StoreFault(_) => "StoreFault",
            Fault::JumpMisaligned(_) => "JumpMisaligned",
        }
    }

    /// The word or the address that the fault carries.
    pub fn number(self) -> u32
        ensures { result ≡ number_of self }
    {
        match self {
            Fault::Illegal(word) => word,
            Fault::FetchFault(pc) => pc,
            Fault::LoadFault(address) | Fault::StoreFault(address) => address,
            Fault::JumpMisaligned(target) => target,
        }
    }

    /// What went wrong, in words. The number follows them.
    fn words(self) -> &'static str
        ensures { result.now ≡ words_of self }
    {
        match self {
            Fault::Illegal(_) => "illegal instruction",
            Fault::FetchFault(_) => "no instruction may be fetched at",
            Fault::LoadFault(_) => "no load is permitted at",
            Fault::StoreFault(_) => "no store is permitted at",
            Fault::JumpMisaligned(_) => "no jump is permitted to",
        }
    }
}

impl fmt::Display for Fault {
    ghost use Rattle.std.specs.Prelude.{Some};
    ghost use Rattle.region_mem.specs.Faults.{fault_text};

    ghost output = { λ fault. Some (fault_text fault) };

    fn fmt<W: fmt::Write>(&self, f: &mut fmt::Formatter<W>) -> fmt::Result {
        let words = self.words();
        let number = Digits(u64::from(self.number()));
        write!(f, "{words} {number}")
    }
}

impl Error for Fault {}
