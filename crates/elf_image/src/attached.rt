//! The file that a certificate is attached to.

ghost use Rattle.std.specs.Prelude.{◌≡◌, ◌≤◌, ◌+◌, ◌*◌, ◌<◌, ◌^◌, ◌++◌, length, false};
ghost use Rattle.std.specs.Prelude.{option_copied, slice_get, IfSome, IfNone, IfOk, OnOk};
ghost use Rattle.std.specs.Prelude.{MatchResult};
ghost use Rattle.std.specs.Result.{result_err};
ghost use Rattle.elf_image.specs.Words.{half, word};
ghost use Rattle.elf_image.specs.Notes.{padded};
ghost use Rattle.elf_image.specs.File.{HasTable, certificates_of};
ghost use Rattle.elf_image.specs.Faults.{has_certificate};
ghost use Rattle.elf_image.specs.Attached.{HasRoom, attach_fault, attached_of, attached_size};
ghost use Rattle.elf_image.specs.Attached.{headers_of, note_header, note_with, outgrows, padding};
ghost use Rattle.elf_image.specs.Attached.{part, patched, rest_from};

use crate::error::ElfError;
use crate::faults::{check_header, check_places, is_entry_no_code, is_too_large_file, refuse_if};
use crate::header::{
    E_PHNUM, E_PHOFF, HeaderTable, MAX_PROGRAM_HEADERS, PF_R, PROGRAM_HEADER_SIZE, PT_NOTE,
    half_at, part_of, word_at,
};
use crate::layout::MAX_FILE_SIZE;
use crate::note::{CERTIFICATE, NAME, NOTE_HEADER_SIZE, certificate, padded};
use std::alloc::{AllocError, Allocator};

/// As many zeros as padding can have.
pub const ZEROS: [u8; 3] = [0, 0, 0];

/// Writes a number of two bytes, the lower byte first ("Data Representation", `Elf32_Half`).
#[tactic(auto, unfolding(crate::specs::Words::half))]
pub fn put_half<A: Allocator>(out: &mut Vec<u8, A>, number: u16) -> Result<(), AllocError>
    ensures { OnOk result (out.new.items ≡ out.old.items ++ half number) }
{
    out.extend_from_slice(&u16::to_le_bytes(number))?;
    Ok(())
}

/// Writes a number of four bytes, the lowest byte first ("Data Representation", `Elf32_Word`).
#[tactic(auto, unfolding(crate::specs::Words::word))]
pub fn put_word<A: Allocator>(out: &mut Vec<u8, A>, number: u32) -> Result<(), AllocError>
    ensures { OnOk result (out.new.items ≡ out.old.items ++ word number) }
{
    out.extend_from_slice(&u32::to_le_bytes(number))?;
    Ok(())
}

/// The zeros that bring a number of bytes to a multiple of 4.
#[tactic(auto, unfolding(crate::specs::Attached::padding))]
fn put_padding<A: Allocator>(out: &mut Vec<u8, A>, size: usize) -> Result<(), AllocError>
    requires { size < 2 ^ 32 }
    ensures { OnOk result (out.new.items ≡ out.old.items ++ padding size) }
{
    out.extend_from_slice(&ZEROS[..padded(size) - size])
}

/// So many bytes of the file from an offset on.
#[tactic(auto, unfolding(crate::specs::Attached::part))]
fn put_part<A: Allocator>(
    out: &mut Vec<u8, A>,
    file: &[u8],
    offset: usize,
    size: usize,
) -> Result<(), AllocError>
    requires { offset + size ≤ length file.now }
    ensures { OnOk result (out.new.items ≡ out.old.items ++ part offset size file.now) }
{
    out.extend_from_slice(part_of(file, offset, size))
}

/// All bytes of the file from an offset on.
#[tactic(auto, unfolding(crate::specs::Attached::rest_from))]
fn put_rest<A: Allocator>(
    out: &mut Vec<u8, A>,
    file: &[u8],
    offset: usize,
) -> Result<(), AllocError>
    requires { offset ≤ length file.now }
    ensures { OnOk result (out.new.items ≡ out.old.items ++ rest_from offset file.now) }
{
    out.extend_from_slice(&file[offset..])
}

/// The file with a table of program headers at an offset.
#[tactic(auto, unfolding(crate::specs::Attached::patched))]
fn put_patched<A: Allocator>(
    out: &mut Vec<u8, A>,
    file: &[u8],
    offset: u32,
    count: u16,
) -> Result<(), AllocError>
    requires { HasTable file.now }
    ensures { OnOk result (out.new.items ≡ out.old.items ++ patched offset count file.now) }
{
    put_part(out, file, 0, E_PHOFF)?;
    put_word(out, offset)?;
    put_part(out, file, E_PHOFF + 4, E_PHNUM - (E_PHOFF + 4))?;
    put_half(out, count)?;
    put_rest(out, file, E_PHNUM + 2)
}

/// The program header of a note segment, by its offset and size in bytes.
#[tactic(auto, unfolding(crate::specs::Attached::note_header))]
fn put_note_header<A: Allocator>(
    out: &mut Vec<u8, A>,
    offset: u32,
    size: u32,
) -> Result<(), AllocError>
    ensures { OnOk result (out.new.items ≡ out.old.items ++ note_header offset size) }
{
    put_word(out, PT_NOTE)?; // p_type
    put_word(out, offset)?; // p_offset
    put_word(out, 0)?; // p_vaddr
    put_word(out, 0)?; // p_paddr
    put_word(out, size)?; // p_filesz
    put_word(out, size)?; // p_memsz
    put_word(out, PF_R)?; // p_flags
    put_word(out, 4) // p_align
}

/// The note of a certificate.
#[tactic(auto, unfolding(crate::specs::Attached::note_with))]
fn put_note<A: Allocator>(out: &mut Vec<u8, A>, certificate: &[u8]) -> Result<(), AllocError>
    requires { length certificate.now < 2 ^ 32 }
    ensures { OnOk result (out.new.items ≡ out.old.items ++ note_with certificate.now) }
{
    put_word(out, NAME.len() as u32)?;
    put_word(out, certificate.len() as u32)?;
    put_word(out, CERTIFICATE)?;
    out.extend_from_slice(&NAME)?;
    put_padding(out, NAME.len())?;
    out.extend_from_slice(certificate)?;
    put_padding(out, certificate.len())
}

/// The bytes of the file's program headers.
fn headers_of(file: &[u8]) -> &[u8]
    requires { HasTable file.now }
    ensures { result.now ≡ headers_of file.now }
{
    let first = word_at(E_PHOFF, file) as usize;
    let count = half_at(E_PHNUM, file) as usize;
    part_of(file, first, PROGRAM_HEADER_SIZE as usize * count)
}

/// How many bytes the note of a certificate has.
#[tactic(auto, using(crate::proofs::AttachedSize::note_long))]
fn note_size(certificate: &[u8]) -> usize
    requires { length certificate.now < 2 ^ 32 }
    ensures value { result ≡ length (note_with certificate.now) }
    ensures size { result ≡ 20 + padded (length certificate.now) }
{
    NOTE_HEADER_SIZE + padded(NAME.len()) + padded(certificate.len())
}

/// How many bytes a file with a certificate has, by the sizes of its parts.
fn attached_size(size: usize, count: u16, certificate_size: usize) -> usize
    requires size { size < 2 ^ 32 }
    requires certificate { certificate_size < 2 ^ 32 }
    ensures { result ≡ attached_size size count certificate_size }
{
    let table = PROGRAM_HEADER_SIZE as usize * (usize::from(count) + 1);
    padded(size) + table + (NOTE_HEADER_SIZE + padded(NAME.len()) + padded(certificate_size))
}

/// Whether the file with a certificate would have too many program headers or too many bytes.
#[tactic(auto, using(crate::proofs::AttachedSize::too_many_headers, crate::proofs::AttachedSize::too_large, crate::proofs::AttachedSize::fits, crate::proofs::AttachedSize::has_room))]
fn outgrows(file: &[u8], certificate: &[u8]) -> bool
    requires { HasTable file.now }
    ensures value { result ≡ outgrows file.now certificate.now }
    ensures room { result ≡ false → HasRoom file.now certificate.now }
{
    let count = half_at(E_PHNUM, file);
    if usize::from(count) >= MAX_PROGRAM_HEADERS {
        return true;
    }
    if file.len() > MAX_FILE_SIZE || certificate.len() > MAX_FILE_SIZE {
        return true;
    }
    attached_size(file.len(), count, certificate.len()) > MAX_FILE_SIZE
}

/// Whether the file has a certificate, by the first that was found, if there is one.
fn has_certificate(file: &[u8], found: Option<&[u8]>) -> bool
    requires { option_copied found ≡ slice_get (certificates_of file.now) 0 }
    ensures { result ≡ has_certificate file.now }
{
    found.is_some()
}

/// Refuses a file for the first reason why the certificate isn't attached.
#[tactic(auto, unfolding(crate::specs::Attached::attach_fault))]
fn check_attached(file: &[u8], cert: &[u8]) -> Result<(), ElfError>
    ensures value { result_err result ≡ attach_fault file.now cert.now }
    ensures room { OnOk result (HasRoom file.now cert.now) }
{
    check_header(file)?;
    let headers = HeaderTable::read(file);
    let segments = headers.segments();
    check_places(file, &headers)?;
    let too_large = is_too_large_file(file, &segments) || outgrows(file, cert);
    refuse_if(too_large, ElfError::TooLarge)?;
    refuse_if(is_entry_no_code(file, &segments), ElfError::EntryNotCode)?;
    let found = certificate(file, headers.as_slice())?;
    refuse_if(has_certificate(file, found), ElfError::CertificateThere)
}

/// Writes the file with a certificate.
#[tactic(auto, unfolding(crate::specs::Attached::attached_of))]
fn write_attached<A: Allocator>(
    alloc: A,
    file: &[u8],
    certificate: &[u8],
) -> Result<Vec<u8, A>, AllocError>
    requires { HasRoom file.now certificate.now }
    ensures { IfOk result (λ bytes. bytes.items ≡ attached_of file.now certificate.now) }
{
    let count = half_at(E_PHNUM, file);
    let table = padded(file.len());
    let note = table + PROGRAM_HEADER_SIZE as usize * (usize::from(count) + 1);
    let size = note_size(certificate);
    let mut out = Vec::with_capacity(alloc, note + size)?;
    put_patched(&mut out, file, table as u32, count + 1)?;
    put_padding(&mut out, file.len())?;
    out.extend_from_slice(headers_of(file))?;
    put_note_header(&mut out, note as u32, size as u32)?;
    put_note(&mut out, certificate)?;
    Ok(out)
}

/// Attaches a certificate to an executable file: a copy of the file, padded with zeros to a multiple of 4, then its program
/// headers and one more, of a note segment (`PT_NOTE`), then the note, whose name is `RVVBOX` and whose descriptor is the
/// certificate. `e_phoff` and `e_phnum` name the new table.
///
/// Nothing is attached for the first reason, in the order of `ElfError`, that holds; there each variant says when. The file is
/// `TooLarge` too where it has 64 program headers already, or would have more than 4 MiB with the certificate, and
/// `CertificateThere` where it has a certificate. Every reason but `NoMemory` is looked for before any memory is
/// asked for.
///
/// `alloc` gives the memory for the bytes of the result.
pub fn attach<A: Allocator>(
    alloc: A,
    file: &[u8],
    certificate: &[u8],
) -> Result<Vec<u8, A>, ElfError>
    // The first reason against it is the answer.
    ensures refused { IfSome (attach_fault file.now certificate.now) (λ e. result ≡ Err e) }
    // Where there is none, the result is the file with the certificate, unless memory runs out.
    ensures bytes { IfNone (attach_fault file.now certificate.now)
        (MatchResult result (λ bytes. bytes.items ≡ attached_of file.now certificate.now)
        (λ e. e ≡ ElfError.NoMemory)) }
{
    check_attached(file, certificate)?;
    Ok(write_attached(alloc, file, certificate)?)
}
