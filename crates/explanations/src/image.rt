//! Why a file is no image that runs: which number of it, where, and what is wanted there, in lines.
ghost use Rattle.std.specs.Prelude.{◌≡◌};
ghost use Rattle.explanations.specs.Image.{flags_wanted};

use crate::address::Address;
use crate::headers::{FileLine, HeaderLines, RuleLines, SegmentLines};
use elf_image::{
    E_ENTRY, ELF_HEADER_SIZE, ELFCLASS32, ELFDATA2LSB, EM_RISCV, ET_EXEC, EV_CURRENT, ElfEvidence,
    ElfField, Excess, MAX_FILE_SIZE, MAX_MEMORY_SIZE, MAX_PROGRAM_HEADERS, MAX_SEGMENTS,
    PROGRAM_HEADER_SIZE, ProgramHeader,
};
use std::fmt;

/// Why a file is no image that runs: what is known of it.
#[derive(Drop)]
pub struct ImageReason(pub ElfEvidence);

/// The standard's name of a field.
#[derive(Clone, Copy)]
struct FieldName(ElfField);

impl fmt::Display for FieldName {
    ghost use Rattle.std.specs.Prelude.{Some};
    ghost use Rattle.explanations.specs.Image.{field_name};

    ghost output = { λ name. Some (field_name name.0) };

    fn fmt<W: fmt::Write>(&self, f: &mut fmt::Formatter<W>) -> fmt::Result {
        f.write_str(match self.0 {
            ElfField::Magic => "e_ident",
            ElfField::Class => "EI_CLASS of e_ident",
            ElfField::Order => "EI_DATA of e_ident",
            ElfField::IdentVersion => "EI_VERSION of e_ident",
            ElfField::Type => "e_type",
            ElfField::Machine => "e_machine",
            ElfField::Version => "e_version",
            ElfField::Entry => "e_entry",
            ElfField::TableOffset => "e_phoff",
            ElfField::Flags => "e_flags",
            ElfField::HeaderSize => "e_ehsize",
            ElfField::EntrySize => "e_phentsize",
            ElfField::EntryCount => "e_phnum",
        })
    }
}

/// The bit of `e_flags` of compressed code.
const EF_RISCV_RVC: u32 = 1;

/// Its bits of a floating-point ABI.
const EF_RISCV_FLOAT_ABI: u32 = 6;

/// What is wanted of `e_flags`, and the remedy.
fn flags_wanted(value: u32) -> &'static str
    ensures { result.now ≡ flags_wanted value }
{
    if value & EF_RISCV_RVC != 0 {
        "  wanted: no compressed code\n  remedy: compile with -march=rv32im_zve32x\n"
    } else if value & EF_RISCV_FLOAT_ABI != 0 {
        "  wanted: no floating-point ABI\n  remedy: compile with -mabi=ilp32\n"
    } else {
        "  wanted: no RV32E\n  remedy: compile with -march=rv32im_zve32x -mabi=ilp32\n"
    }
}

/// What is wanted of a field that has this number, and the remedy where there is one.
#[derive(Clone, Copy)]
struct Wanted {
    field: ElfField,
    value: u32,
}

impl fmt::Display for Wanted {
    ghost use Rattle.std.specs.Prelude.{Some};
    ghost use Rattle.explanations.specs.Image.{wanted};

    ghost output = { λ w. Some (wanted w.field w.value) };

    fn fmt<W: fmt::Write>(&self, f: &mut fmt::Formatter<W>) -> fmt::Result {
        let Wanted { field, value } = *self;
        match field {
            ElfField::Magic => f.write_str("  wanted: 0x464c457f, the bytes 7f, E, L, F\n"),
            ElfField::Class => {
                write!(
                    f,
                    "  wanted: {ELFCLASS32}, 32 bits\n  remedy: compile with --target=riscv32\n"
                )
            }
            ElfField::Order => writeln!(f, "  wanted: {ELFDATA2LSB}, little-endian"),
            ElfField::IdentVersion => writeln!(f, "  wanted: {EV_CURRENT}"),
            ElfField::Type => {
                write!(
                    f,
                    "  wanted: {ET_EXEC}, an executable file\n  remedy: link with -static\n"
                )
            }
            ElfField::Machine => {
                write!(
                    f,
                    "  wanted: {EM_RISCV}, RISC-V\n  remedy: compile with --target=riscv32\n"
                )
            }
            ElfField::Version => writeln!(f, "  wanted: {EV_CURRENT}"),
            ElfField::Entry => {
                f.write_str("  wanted: a multiple of 4 in a segment that can be executed\n")
            }
            ElfField::TableOffset => {
                f.write_str("  wanted: the table of program headers within the file\n")
            }
            ElfField::Flags => f.write_str(flags_wanted(value)),
            ElfField::HeaderSize => writeln!(f, "  wanted: {ELF_HEADER_SIZE}"),
            ElfField::EntrySize => writeln!(f, "  wanted: {PROGRAM_HEADER_SIZE}"),
            ElfField::EntryCount => writeln!(f, "  wanted: 1 to {MAX_PROGRAM_HEADERS}"),
        }
    }
}

/// Where a field stands.
#[derive(Clone, Copy)]
struct FieldPlace {
    field: ElfField,
    offset: usize,
}

impl fmt::Display for FieldPlace {
    ghost use Rattle.std.specs.Prelude.{Some};
    ghost use Rattle.explanations.specs.Image.{field_place};

    ghost output = { λ place. Some (field_place place.field place.offset) };

    fn fmt<W: fmt::Write>(&self, f: &mut fmt::Formatter<W>) -> fmt::Result {
        let FieldPlace { field, offset } = *self;
        let field = FieldName(field);
        write!(f, "  {field} at byte {offset} of the file: ")
    }
}

/// The number of a field, as a number and as a word.
#[derive(Clone, Copy)]
struct FieldNumber(u32);

impl fmt::Display for FieldNumber {
    ghost use Rattle.std.specs.Prelude.{Some};
    ghost use Rattle.explanations.specs.Image.{field_number};

    ghost output = { λ number. Some (field_number number.0) };

    fn fmt<W: fmt::Write>(&self, f: &mut fmt::Formatter<W>) -> fmt::Result {
        let value = self.0;
        let word = Address(u64::from(value));
        writeln!(f, "{value} ({word})")
    }
}

/// Of what a file has too much. A file is read no further than one byte beyond its limit.
#[derive(Clone, Copy)]
struct ExcessLines(Excess);

impl fmt::Display for ExcessLines {
    ghost use Rattle.std.specs.Prelude.{Some};
    ghost use Rattle.explanations.specs.Image.{excess_text};

    ghost output = { λ lines. Some (excess_text lines.0) };

    fn fmt<W: fmt::Write>(&self, f: &mut fmt::Formatter<W>) -> fmt::Result {
        match self.0 {
            Excess::File(size) => {
                write!(
                    f,
                    "  size of the file: {size} or more\n  wanted: at most {MAX_FILE_SIZE}\n"
                )
            }
            Excess::Segments(count) => {
                write!(f, "  segments: {count}\n  wanted: at most {MAX_SEGMENTS}\n")
            }
            Excess::Memory(size) => {
                write!(
                    f,
                    "  bytes of memory of its segments: {size}\n  \
                     wanted: at most {MAX_MEMORY_SIZE}\n"
                )
            }
        }
    }
}

/// An entry that is not in code, the segments, and what is wanted.
#[derive(Clone, Copy)]
struct EntryLines<'a>(u32, &'a [ProgramHeader]);

impl fmt::Display for EntryLines<'_> {
    ghost use Rattle.std.specs.Prelude.{Some};
    ghost use Rattle.explanations.specs.Image.{entry_text};

    ghost output = { λ lines. Some (entry_text lines.0 lines.1.now) };

    fn fmt<W: fmt::Write>(&self, f: &mut fmt::Formatter<W>) -> fmt::Result {
        let field = ElfField::Entry;
        let value = self.0;
        let place = FieldPlace {
            field,
            offset: E_ENTRY,
        };
        let number = FieldNumber(value);
        let segments = SegmentLines(self.1);
        let wanted = Wanted { field, value };
        write!(f, "{place}{number}{segments}{wanted}")
    }
}

impl fmt::Display for ImageReason {
    ghost use Rattle.std.specs.Prelude.{Some};
    ghost use Rattle.explanations.specs.Image.{image_text};

    ghost output = { λ reason. Some (image_text reason.0) };

    fn fmt<W: fmt::Write>(&self, f: &mut fmt::Formatter<W>) -> fmt::Result {
        match &self.0 {
            ElfEvidence::Nothing => Ok(()),
            ElfEvidence::Short(size) => {
                write!(
                    f,
                    "  size of the file: {size}\n  wanted: at least {ELF_HEADER_SIZE}, an ELF header\n"
                )
            }
            ElfEvidence::Field {
                field,
                offset,
                value,
            } => {
                let (field, offset, value) = (*field, *offset, *value);
                let place = FieldPlace { field, offset };
                let number = FieldNumber(value);
                let wanted = Wanted { field, value };
                write!(f, "{place}{number}{wanted}")
            }
            ElfEvidence::Segment { rule, size, header } => {
                let header = HeaderLines(*header);
                let (rule, size) = (*rule, *size);
                let file = FileLine { rule, size };
                let rule = RuleLines(rule);
                write!(f, "{header}{file}{rule}")
            }
            ElfEvidence::Overlap { first, second } => {
                let (first, second) = (HeaderLines(*first), HeaderLines(*second));
                write!(f, "{first}{second}  wanted: no address of both\n")
            }
            ElfEvidence::Large(excess) => {
                let excess = ExcessLines(*excess);
                write!(f, "{excess}")
            }
            ElfEvidence::NoCode { entry, segments } => {
                let lines = EntryLines(*entry, segments.as_slice());
                write!(f, "{lines}")
            }
            ElfEvidence::Certificates => writeln!(f, "  wanted: one note with a certificate"),
        }
    }
}
