//! What is known of a file that is refused: which number of it is wrong, and where that stands.
ghost use Rattle.std.specs.Prelude.{◌≡◌, ◌<◌, ◌≤◌, length};
ghost use Rattle.elf_image.specs.File.{HasTable, e_phnum};
ghost use Rattle.elf_image.specs.Evidence.{breaks, error_of, field_evidence, number_in, offset_of};
ghost use Rattle.elf_image.specs.Evidence.{placed_header};
ghost use Rattle.elf_image.specs.declared.error.ElfError.TheVariants.{NoMemory};
ghost use Rattle.elf_image.specs.declared.evidence.ElfEvidence.TheVariants.{Nothing};
ghost use Rattle.elf_image.specs.declared.faults.TheConstants.{ELF_HEADER_SIZE};

use crate::error::ElfError;
use crate::faults::{EI_CLASS, EI_DATA, EI_VERSION, ELF_HEADER_SIZE};
use crate::header::{
    E_EHSIZE, E_ENTRY, E_FLAGS, E_MACHINE, E_PHENTSIZE, E_PHNUM, E_PHOFF, E_TYPE, E_VERSION,
    HeaderTable, ProgramHeader, half_at, header_offset, program_header_at, word_at,
};
use std::alloc::AllocError;

/// A field of an ELF header ("ELF Header").
#[derive(Clone, Copy)]
pub enum ElfField {
    /// The first four bytes of `e_ident`.
    Magic,
    /// Its byte `EI_CLASS`.
    Class,
    /// Its byte `EI_DATA`.
    Order,
    /// Its byte `EI_VERSION`.
    IdentVersion,
    /// `e_type`.
    Type,
    /// `e_machine`.
    Machine,
    /// `e_version`.
    Version,
    /// `e_entry`.
    Entry,
    /// `e_phoff`.
    TableOffset,
    /// `e_flags`.
    Flags,
    /// `e_ehsize`.
    HeaderSize,
    /// `e_phentsize`.
    EntrySize,
    /// `e_phnum`.
    EntryCount,
}

/// A rule that each program header has to meet.
#[derive(Clone, Copy)]
pub enum SegmentRule {
    /// None asks for dynamic linking, an interpreter or thread-local storage.
    Static,
    /// The bytes of a segment lie in the file, and it has no more in the file than in memory.
    InFile,
    /// The addresses of a segment are for segments.
    InPlace,
    /// A segment can't be both written and executed.
    WriteOrExecute,
}

/// A program header: its number in the table, from 0 on, where it begins in the file, and what its fields say.
#[derive(Clone, Copy)]
pub struct PlacedHeader {
    pub number: usize,
    pub offset: usize,
    pub fields: ProgramHeader,
}

/// Of what a file has too much.
#[derive(Clone, Copy)]
pub enum Excess {
    /// So many bytes.
    File(usize),
    /// So many segments.
    Segments(usize),
    /// So many bytes of memory, of all its segments together.
    Memory(u64),
}

/// What is known of a file that is refused.
#[derive(Drop)]
pub enum ElfEvidence {
    /// Nothing: memory ran out.
    Nothing,
    /// The file has too few bytes, and this number of them.
    Short(usize),
    /// A field of the ELF header, the offset of its first byte in the file, and the number that stands there.
    Field {
        field: ElfField,
        offset: usize,
        value: u32,
    },
    /// The first program header that breaks a rule, and the file's size in bytes.
    Segment {
        rule: SegmentRule,
        size: usize,
        header: PlacedHeader,
    },
    /// Two segments that share an address.
    Overlap {
        first: PlacedHeader,
        second: PlacedHeader,
    },
    /// The file or its memory is too large.
    Large(Excess),
    /// The entry is not in code: the number that stands at its field, and the program headers of the segments.
    NoCode {
        entry: u32,
        segments: HeaderTable,
    },
    /// The file has more than one certificate.
    Certificates,
}

/// Why a file is refused, with what is known of it.
#[derive(Drop)]
pub struct ElfRefusal {
    /// Why it is refused.
    pub error: ElfError,
    /// What was found where it is.
    pub evidence: ElfEvidence,
}

impl ElfField {
    /// Where the field begins in the file.
    fn offset(self) -> usize
        ensures { result ≡ offset_of self }
    {
        match self {
            ElfField::Magic => 0,
            ElfField::Class => EI_CLASS,
            ElfField::Order => EI_DATA,
            ElfField::IdentVersion => EI_VERSION,
            ElfField::Type => E_TYPE,
            ElfField::Machine => E_MACHINE,
            ElfField::Version => E_VERSION,
            ElfField::Entry => E_ENTRY,
            ElfField::TableOffset => E_PHOFF,
            ElfField::Flags => E_FLAGS,
            ElfField::HeaderSize => E_EHSIZE,
            ElfField::EntrySize => E_PHENTSIZE,
            ElfField::EntryCount => E_PHNUM,
        }
    }

    /// The number that stands there.
    fn value(self, file: &[u8]) -> u32
        requires { ELF_HEADER_SIZE ≤ length file.now }
        ensures { result ≡ number_in file.now self }
    {
        let offset = self.offset();
        match self {
            ElfField::Class | ElfField::Order | ElfField::IdentVersion => u32::from(file[offset]),
            ElfField::Type
            | ElfField::Machine
            | ElfField::HeaderSize
            | ElfField::EntrySize
            | ElfField::EntryCount => u32::from(half_at(offset, file)),
            ElfField::Magic
            | ElfField::Version
            | ElfField::Entry
            | ElfField::TableOffset
            | ElfField::Flags => word_at(offset, file),
        }
    }

    /// What is known of a file with this field wrong.
    pub(crate) fn evidence(self, file: &[u8]) -> ElfEvidence
        requires { ELF_HEADER_SIZE ≤ length file.now }
        ensures { result ≡ field_evidence file.now self }
    {
        ElfEvidence::Field {
            field: self,
            offset: self.offset(),
            value: self.value(file),
        }
    }
}

impl SegmentRule {
    /// Why a file is refused where a program header breaks the rule.
    pub(crate) fn error(self) -> ElfError
        ensures { result ≡ error_of self }
    {
        match self {
            SegmentRule::Static => ElfError::NotStatic,
            SegmentRule::InFile => ElfError::SegmentOutOfFile,
            SegmentRule::InPlace => ElfError::SegmentOutOfPlace,
            SegmentRule::WriteOrExecute => ElfError::WriteAndExecute,
        }
    }

    /// Whether a header breaks the rule, in a file of this size.
    #[tactic(auto, unfolding(crate::specs::Evidence::breaks))]
    pub(crate) fn is_broken_by(self, size: u64, header: &ProgramHeader) -> bool
        ensures { result ≡ breaks self size header.now }
    {
        match self {
            SegmentRule::Static => header.is_dynamic(),
            SegmentRule::InFile => header.is_out_of_file(size),
            SegmentRule::InPlace => header.is_segment() && header.is_out_of_place(),
            SegmentRule::WriteOrExecute => header.is_segment() && header.is_write_and_execute(),
        }
    }
}

impl PlacedHeader {
    /// The program header with a number.
    pub(crate) fn read(number: usize, file: &[u8]) -> PlacedHeader
        requires table { HasTable file.now }
        requires there { number < e_phnum file.now }
        ensures { result ≡ placed_header file.now number }
    {
        let offset = header_offset(number, file);
        PlacedHeader {
            number,
            offset,
            fields: program_header_at(offset, file),
        }
    }
}

impl From<AllocError> for ElfRefusal {
    ghost from_gives = { λ _ r. r ≡ record { error = NoMemory; evidence = Nothing } };

    fn from(_e: AllocError) -> ElfRefusal {
        ElfRefusal {
            error: ElfError::NoMemory,
            evidence: ElfEvidence::Nothing,
        }
    }
}
