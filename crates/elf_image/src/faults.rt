//! What may be wrong with a file.

ghost use Rattle.std.specs.Prelude.{◌≡◌, ◌≤◌, OnOk, None, Some, length, if◌then◌else◌};
ghost use Rattle.std.specs.Result.{result_err};
ghost use Rattle.std.specs.List.{list_any, position};
ghost use Rattle.elf_image.specs.File.{HasTable, e_entry, program_headers, segment_headers};
ghost use Rattle.elf_image.specs.Evidence.{are_overlapping, breaks, error_of, field_refusal};
ghost use Rattle.elf_image.specs.Evidence.{first_excess, first_refusal, overlap_from, refusal_if};
ghost use Rattle.elf_image.specs.Faults.{has_bad_count, has_table_outside, is_not_code};
ghost use Rattle.elf_image.specs.Faults.{is_too_large, is_too_short};
ghost use Rattle.elf_image.specs.Faults.{has_word, first_of, header_faults, place_faults};
ghost use Rattle.elf_image.specs.Faults.{segment_faults, told_if};

use crate::error::ElfError;
use crate::evidence::{ElfEvidence, ElfField, ElfRefusal, Excess, PlacedHeader, SegmentRule};
use crate::header;
use crate::header::{
    HeaderTable, MAX_PROGRAM_HEADERS, PROGRAM_HEADER_SIZE, ProgramHeader, half_at, word_at,
};
use crate::layout::{MAX_FILE_SIZE, MAX_MEMORY_SIZE, MAX_SEGMENTS};

/// What `e_ident` begins with ("ELF Identification", `ELFMAG`).
const MAGIC: [u8; 4] = [0x7f, b'E', b'L', b'F'];

/// Where the byte of a file's class lies, 32 bits or 64 ("ELF Identification").
pub const EI_CLASS: usize = 4;

/// Where the byte of the order of bytes lies.
pub const EI_DATA: usize = 5;

/// Where the byte of the standard's version lies.
pub const EI_VERSION: usize = 6;

/// The class of 32 bits.
pub const ELFCLASS32: u8 = 1;

/// The order with the lowest byte first.
pub const ELFDATA2LSB: u8 = 1;

/// The version of the standard.
pub const EV_CURRENT: u8 = 1;

/// The `e_type` of an executable file ("ELF Header").
pub const ET_EXEC: u16 = 2;

/// The `e_machine` of RISC-V ("ELF Object Files" of the RISC-V psABI).
pub const EM_RISCV: u16 = 243;

/// EF_RISCV_RVC, EF_RISCV_FLOAT_ABI and EF_RISCV_RVE.
const EXTENSION_FLAGS: u32 = 0xf;

/// The size of an ELF header ("ELF Header", `Elf32_Ehdr`).
pub const ELF_HEADER_SIZE: usize = 52;

/// Whether a file has fewer bytes than an ELF header ("ELF Header", `Elf32_Ehdr`).
pub fn is_too_short(file: &[u8]) -> bool
    ensures { result ≡ is_too_short file.now }
{
    file.len() < ELF_HEADER_SIZE
}

/// Refuses a file where a field is wrong.
fn refuse_field(
    file: &[u8],
    wrong: bool,
    error: ElfError,
    field: ElfField,
) -> Result<(), ElfRefusal>
    requires { ELF_HEADER_SIZE ≤ length file.now }
    ensures { result_err result ≡ (if wrong then Some (field_refusal file.now error field)
        else None) }
{
    if wrong {
        let evidence = field.evidence(file);
        Err(ElfRefusal { error, evidence })
    } else {
        Ok(())
    }
}

fn check_size_of_header(file: &[u8]) -> Result<(), ElfRefusal>
    ensures value { result_err result ≡ refusal_if file.now ElfError.TooShort }
    ensures size { OnOk result (ELF_HEADER_SIZE ≤ length file.now) }
{
    if is_too_short(file) {
        return Err(ElfRefusal {
            error: ElfError::TooShort,
            evidence: ElfEvidence::Short(file.len()),
        });
    }
    Ok(())
}

#[tactic(auto, unfolding(crate::specs::Faults::has_bad_magic))]
fn check_magic(file: &[u8]) -> Result<(), ElfRefusal>
    requires { ELF_HEADER_SIZE ≤ length file.now }
    ensures { result_err result ≡ refusal_if file.now ElfError.BadMagic }
{
    let wrong = !file.starts_with(&MAGIC);
    refuse_field(file, wrong, ElfError::BadMagic, ElfField::Magic)
}

#[tactic(auto, unfolding(crate::specs::Faults::has_bad_class))]
fn check_class(file: &[u8]) -> Result<(), ElfRefusal>
    requires { ELF_HEADER_SIZE ≤ length file.now }
    ensures { result_err result ≡ refusal_if file.now ElfError.BadClass }
{
    let error = ElfError::BadClass;
    refuse_field(file, file[EI_CLASS] != ELFCLASS32, error, ElfField::Class)?;
    refuse_field(file, file[EI_DATA] != ELFDATA2LSB, error, ElfField::Order)?;
    let wrong = file[EI_VERSION] != EV_CURRENT;
    refuse_field(file, wrong, error, ElfField::IdentVersion)
}

#[tactic(auto, unfolding(crate::specs::Faults::has_bad_type))]
fn check_type(file: &[u8]) -> Result<(), ElfRefusal>
    requires { ELF_HEADER_SIZE ≤ length file.now }
    ensures { result_err result ≡ refusal_if file.now ElfError.BadType }
{
    let wrong = half_at(header::E_TYPE, file) != ET_EXEC;
    refuse_field(file, wrong, ElfError::BadType, ElfField::Type)?;
    let wrong = word_at(header::E_VERSION, file) != u32::from(EV_CURRENT);
    refuse_field(file, wrong, ElfError::BadType, ElfField::Version)
}

#[tactic(auto, unfolding(crate::specs::Faults::has_bad_machine))]
fn check_machine(file: &[u8]) -> Result<(), ElfRefusal>
    requires { ELF_HEADER_SIZE ≤ length file.now }
    ensures { result_err result ≡ refusal_if file.now ElfError.BadMachine }
{
    let wrong = half_at(header::E_MACHINE, file) != EM_RISCV;
    refuse_field(file, wrong, ElfError::BadMachine, ElfField::Machine)
}

#[tactic(auto, unfolding(crate::specs::Faults::has_bad_flags))]
fn check_flags(file: &[u8]) -> Result<(), ElfRefusal>
    requires { ELF_HEADER_SIZE ≤ length file.now }
    ensures { result_err result ≡ refusal_if file.now ElfError.BadFlags }
{
    let wrong = word_at(header::E_FLAGS, file) & EXTENSION_FLAGS != 0;
    refuse_field(file, wrong, ElfError::BadFlags, ElfField::Flags)
}

/// Whether there is no program header, or there are too many.
fn has_bad_count(file: &[u8]) -> bool
    requires { ELF_HEADER_SIZE ≤ length file.now }
    ensures { result ≡ has_bad_count file.now }
{
    let count = usize::from(half_at(header::E_PHNUM, file));
    count == 0 || MAX_PROGRAM_HEADERS < count
}

/// Whether the table of program headers does not lie inside the file.
fn has_table_outside(file: &[u8]) -> bool
    requires { ELF_HEADER_SIZE ≤ length file.now }
    ensures { result ≡ has_table_outside file.now }
{
    let first = u64::from(word_at(header::E_PHOFF, file));
    let count = u64::from(half_at(header::E_PHNUM, file));
    (file.len() as u64) < first + u64::from(PROGRAM_HEADER_SIZE) * count
}

#[tactic(auto, unfolding(crate::specs::Faults::has_bad_header_table))]
fn check_table(file: &[u8]) -> Result<(), ElfRefusal>
    requires { ELF_HEADER_SIZE ≤ length file.now }
    ensures value { result_err result ≡ refusal_if file.now ElfError.BadHeaderTable }
    ensures table { OnOk result (HasTable file.now) }
{
    let error = ElfError::BadHeaderTable;
    let wrong = half_at(header::E_EHSIZE, file) as usize != ELF_HEADER_SIZE;
    refuse_field(file, wrong, error, ElfField::HeaderSize)?;
    let wrong = half_at(header::E_PHENTSIZE, file) != PROGRAM_HEADER_SIZE;
    refuse_field(file, wrong, error, ElfField::EntrySize)?;
    refuse_field(file, has_bad_count(file), error, ElfField::EntryCount)?;
    refuse_field(file, has_table_outside(file), error, ElfField::TableOffset)
}

/// Refuses a file that has this fault.
pub fn refuse_if(found: bool, fault: ElfError) -> Result<(), ElfError>
    ensures { result_err result ≡ told_if fault found }
{
    if found { Err(fault) } else { Ok(()) }
}

/// Refuses a file for the first fault of its ELF header, with what is known of it.
pub fn check_header_kept(file: &[u8]) -> Result<(), ElfRefusal>
    ensures value { result_err result ≡ first_refusal header_faults file.now }
    ensures table { OnOk result (HasTable file.now) }
{
    check_size_of_header(file)?;
    check_magic(file)?;
    check_class(file)?;
    check_type(file)?;
    check_machine(file)?;
    check_flags(file)?;
    check_table(file)
}

/// Refuses a file for the first fault of its ELF header.
#[tactic(auto, using(crate::proofs::EvidenceLemmas::error_told, crate::proofs::EvidenceLemmas::none_told))]
pub fn check_header(file: &[u8]) -> Result<(), ElfError>
    ensures value { result_err result ≡ first_of header_faults file.now }
    ensures table { OnOk result (HasTable file.now) }
{
    match check_header_kept(file) {
        Ok(()) => Ok(()),
        Err(refusal) => Err(refusal.error),
    }
}

/// The number of the first header that breaks a rule, in a file of this size.
fn first_breaking(rule: SegmentRule, size: u64, headers: &[ProgramHeader]) -> Option<usize>
    ensures { result ≡ position (breaks rule size) headers.now }
{
    headers.iter().position(|h| rule.is_broken_by(size, h))
}

/// Refuses a file for the first program header that breaks a rule.
#[tactic(auto, using(crate::proofs::EvidenceLemmas::rule_told, crate::proofs::EvidenceLemmas::number_in_table))]
fn check_rule(rule: SegmentRule, file: &[u8], headers: &[ProgramHeader]) -> Result<(), ElfRefusal>
    requires table { HasTable file.now }
    requires headers { headers.now ≡ program_headers file.now }
    ensures { result_err result ≡ refusal_if file.now (error_of rule) }
{
    let size = file.len();
    let Some(number) = first_breaking(rule, size as u64, headers) else {
        return Ok(());
    };
    let header = PlacedHeader::read(number, file);
    Err(ElfRefusal {
        error: rule.error(),
        evidence: ElfEvidence::Segment { rule, size, header },
    })
}

/// How many places behind a header the first segment stands that shares an address with it, from 0 on.
fn first_overlapped(h: &ProgramHeader, others: &[ProgramHeader]) -> Option<usize>
    ensures { result ≡ position (are_overlapping h.now) others.now }
{
    others.iter().position(|other| h.is_segment() && other.is_segment() && h.overlaps(other))
}

/// The numbers of the first two segments that share an address.
#[tactic(auto, unfolding(crate::specs::Evidence::overlap_from))]
fn first_overlap(headers: &[ProgramHeader]) -> Option<(usize, usize)>
    ensures { result ≡ overlap_from 0 headers.now }
{
    let mut rest = headers;
    let mut number = 0;
    while let Some((first, others)) = rest.split_first() {
        if let Some(behind) = first_overlapped(first, others) {
            return Some((number, number + 1 + behind));
        }
        rest = others;
        number += 1;
    }
    None
}

/// Refuses a file for the first two segments that share an address.
#[tactic(auto, using(crate::proofs::EvidenceLemmas::overlap_told, crate::proofs::EvidenceLemmas::numbers_in_table))]
fn check_overlap(file: &[u8], headers: &[ProgramHeader]) -> Result<(), ElfRefusal>
    requires table { HasTable file.now }
    requires headers { headers.now ≡ program_headers file.now }
    ensures { result_err result ≡ refusal_if file.now ElfError.SegmentsOverlap }
{
    let Some((first, second)) = first_overlap(headers) else {
        return Ok(());
    };
    Err(ElfRefusal {
        error: ElfError::SegmentsOverlap,
        evidence: ElfEvidence::Overlap {
            first: PlacedHeader::read(first, file),
            second: PlacedHeader::read(second, file),
        },
    })
}

/// Of what a file of this size with these segments has too much.
#[tactic(auto, unfolding(crate::specs::Faults::is_too_large))]
fn excess(size: usize, segments: &[ProgramHeader]) -> Option<Excess>
    requires { length segments.now ≤ MAX_PROGRAM_HEADERS }
    ensures { result ≡ (if is_too_large size segments.now
        then Some (first_excess size segments.now) else None) }
{
    let memory: u64 = segments.iter().map(|h| u64::from(h.p_memsz)).sum();
    if size > MAX_FILE_SIZE {
        Some(Excess::File(size))
    } else if segments.len() > MAX_SEGMENTS {
        Some(Excess::Segments(segments.len()))
    } else if memory > MAX_MEMORY_SIZE {
        Some(Excess::Memory(memory))
    } else {
        None
    }
}

fn has_word(address: u32, h: &ProgramHeader) -> bool
    ensures { result ≡ has_word address h.now }
{
    h.is_executable() && h.p_vaddr <= address && u64::from(address) + 4 <= h.end()
}

fn has_code_at(address: u32, segments: &[ProgramHeader]) -> bool
    ensures { result ≡ list_any (has_word address) segments.now }
{
    segments.iter().any(|h| has_word(address, h))
}

#[tactic(auto, unfolding(crate::specs::Faults::is_not_code))]
fn is_not_code(entry: u32, segments: &[ProgramHeader]) -> bool
    ensures { result ≡ is_not_code entry segments.now }
{
    entry % 4 != 0 || !has_code_at(entry, segments)
}

/// Refuses a file for the first fault of its program headers by themselves, with what is known of it.
fn check_places_kept(file: &[u8], headers: &[ProgramHeader]) -> Result<(), ElfRefusal>
    requires table { HasTable file.now }
    requires headers { headers.now ≡ program_headers file.now }
    ensures { result_err result ≡ first_refusal place_faults file.now }
{
    check_rule(SegmentRule::Static, file, headers)?;
    check_rule(SegmentRule::InFile, file, headers)?;
    check_rule(SegmentRule::InPlace, file, headers)?;
    check_overlap(file, headers)?;
    check_rule(SegmentRule::WriteOrExecute, file, headers)
}

/// Refuses a file for the first fault of its program headers by themselves.
#[tactic(auto, using(crate::proofs::EvidenceLemmas::error_told, crate::proofs::EvidenceLemmas::none_told))]
pub fn check_places(file: &[u8], headers: &HeaderTable) -> Result<(), ElfError>
    requires table { HasTable file.now }
    requires headers { headers.now ≡ program_headers file.now }
    ensures { result_err result ≡ first_of place_faults file.now }
{
    match check_places_kept(file, headers.as_slice()) {
        Ok(()) => Ok(()),
        Err(refusal) => Err(refusal.error),
    }
}

/// Whether the file or its image is too large.
pub fn is_too_large_file(file: &[u8], segments: &HeaderTable) -> bool
    requires { segments.now ≡ segment_headers file.now }
    ensures { result ≡ is_too_large (length file.now) (segment_headers file.now) }
{
    excess(file.len(), segments.as_slice()).is_some()
}

/// Whether the entry isn't code.
pub fn is_entry_no_code(file: &[u8], segments: &HeaderTable) -> bool
    requires header { HasTable file.now }
    requires segments { segments.now ≡ segment_headers file.now }
    ensures { result ≡ is_not_code (e_entry file.now) (segment_headers file.now) }
{
    is_not_code(word_at(header::E_ENTRY, file), segments.as_slice())
}

/// Refuses a file that is too large, with what there is too much of.
fn check_large(file: &[u8], segments: &HeaderTable) -> Result<(), ElfRefusal>
    requires { segments.now ≡ segment_headers file.now }
    ensures { result_err result ≡ refusal_if file.now ElfError.TooLarge }
{
    match excess(file.len(), segments.as_slice()) {
        Some(excess) => Err(ElfRefusal {
            error: ElfError::TooLarge,
            evidence: ElfEvidence::Large(excess),
        }),
        None => Ok(()),
    }
}

/// Refuses a file whose entry is not in code, with the segments where it is not.
fn check_entry(file: &[u8], headers: &HeaderTable, segments: &HeaderTable) -> Result<(), ElfRefusal>
    requires header { HasTable file.now }
    requires headers { headers.now ≡ program_headers file.now }
    requires segments { segments.now ≡ segment_headers file.now }
    ensures { result_err result ≡ refusal_if file.now ElfError.EntryNotCode }
{
    if is_entry_no_code(file, segments) {
        return Err(ElfRefusal {
            error: ElfError::EntryNotCode,
            evidence: ElfEvidence::NoCode {
                entry: word_at(header::E_ENTRY, file),
                segments: headers.segments(),
            },
        });
    }
    Ok(())
}

/// Refuses a file for the first fault of its program headers, with what is known of it.
pub fn check_segments_kept(
    file: &[u8],
    headers: &HeaderTable,
    segments: &HeaderTable,
) -> Result<(), ElfRefusal>
    requires header { HasTable file.now }
    requires headers { headers.now ≡ program_headers file.now }
    requires segments { segments.now ≡ segment_headers file.now }
    ensures { result_err result ≡ first_refusal segment_faults file.now }
{
    check_places_kept(file, headers.as_slice())?;
    check_large(file, segments)?;
    check_entry(file, headers, segments)
}
