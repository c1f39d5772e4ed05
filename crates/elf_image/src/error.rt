//! Why a file is refused.

ghost use Rattle.std.specs.Prelude.{◌≡◌};
ghost use Rattle.elf_image.specs.Error.{error_text};
ghost use Rattle.elf_image.specs.declared.error.ElfError.TheVariants.{NoMemory};

use std::alloc::{AllocError, AllocFailed};
use std::error::Error;
use std::fmt;

/// Why a file is refused. Of several reasons the first of this list is the answer. `NoMemory` is it only where
/// no other holds.
#[derive(Clone, Copy, Debug, PartialEq, Eq)]
pub enum ElfError {
    /// The file has fewer than the 52 bytes of an ELF header.
    TooShort,
    /// `e_ident` doesn't begin with 7f, E, L, F.
    BadMagic,
    /// `e_ident` names another class than 32 bits, another order of bytes than little-endian, or
    /// another version than 1.
    BadClass,
    /// `e_type` isn't that of an executable file, or `e_version` isn't 1.
    BadType,
    /// `e_machine` isn't RISC-V.
    BadMachine,
    /// `e_flags` asks for compressed instructions, a floating-point ABI or RV32E.
    BadFlags,
    /// `e_ehsize` or `e_phentsize` isn't that of 32 bits, there is no program header, there are more
    /// than 64, or their table isn't inside the file.
    BadHeaderTable,
    /// A program header asks for dynamic linking, an interpreter or thread-local storage.
    NotStatic,
    /// A loadable or note segment has bytes outside the file, or a loadable one has more bytes in the
    /// file than in memory.
    SegmentOutOfFile,
    /// A segment lies outside the addresses that are for segments.
    SegmentOutOfPlace,
    /// Two segments share an address.
    SegmentsOverlap,
    /// A segment can be both written and executed.
    WriteAndExecute,
    /// The file has more than 4 MiB, more than 16 segments, or more than 16 MiB in memory.
    TooLarge,
    /// The entry isn't a multiple of 4, or its word doesn't lie in a segment that can be executed.
    EntryNotCode,
    /// The file has more than one certificate.
    TwoCertificates,
    /// The file has a certificate, so that no other can be attached. `attach` alone tells it.
    CertificateThere,
    /// There is too little memory to read the file, or to write the one with a certificate.
    NoMemory,
}

impl ElfError {
    /// Why the file is refused, in words.
    fn words(self) -> &'static str
        ensures { result.now ≡ error_text self }
    {
        match self {
            ElfError::TooShort => "the file is shorter than an ELF header",
            ElfError::BadMagic => "the file is not an ELF file",
            ElfError::BadClass => "the file is not of 32 bits and little-endian",
            ElfError::BadType => "the file is not an executable",
            ElfError::BadMachine => "the file is not for RISC-V",
            ElfError::BadFlags => "the file needs an extension that is not there",
            ElfError::BadHeaderTable => "the table of program headers is malformed",
            ElfError::NotStatic => "the file is not statically linked",
            ElfError::SegmentOutOfFile => "a segment lies outside the file",
            ElfError::SegmentOutOfPlace => "a segment lies at an address that is not for segments",
            ElfError::SegmentsOverlap => "two segments overlap",
            ElfError::WriteAndExecute => "a segment can be both written and executed",
            ElfError::TooLarge => "the file or its memory is too large",
            ElfError::EntryNotCode => "the entry is not in code",
            ElfError::TwoCertificates => "the file has two certificates",
            ElfError::CertificateThere => "the file has a certificate already",
            ElfError::NoMemory => "out of memory",
        }
    }
}

impl fmt::Display for ElfError {
    ghost use Rattle.std.specs.Prelude.{Some};
    ghost use Rattle.elf_image.specs.Error.{error_text};

    ghost output = { λ error. Some (error_text error) };

    fn fmt<W: fmt::Write>(&self, f: &mut fmt::Formatter<W>) -> fmt::Result {
        f.write_str(self.words())
    }
}

impl Error for ElfError {}

impl From<AllocError> for ElfError {
    ghost from_gives = { λ _ e. e ≡ NoMemory };

    fn from(_e: AllocError) -> ElfError {
        ElfError::NoMemory
    }
}

impl<T: Drop> From<AllocFailed<T>> for ElfError {
    ghost from_gives = { λ _ e. e ≡ NoMemory };

    fn from(_e: AllocFailed<T>) -> ElfError {
        ElfError::NoMemory
    }
}
