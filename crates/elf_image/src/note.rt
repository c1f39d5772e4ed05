//! The notes of a note segment.

ghost use Rattle.std.specs.Prelude.{◌≡◌, ◌<◌, ◌++◌, All, IfOk, IfErr, OnErr, is_err, option_copied};
ghost use Rattle.std.specs.Prelude.{slice_get, ◌^◌, ◌+◌, ◌∷◌, [], true, false, IfSome, IfNone};
ghost use Rattle.std.specs.Prelude.{MatchOption, length, drop};
ghost use Rattle.std.specs.List.{flat_map};
ghost use Rattle.elf_image.specs.Notes.{padded, note_size_of, has_note, note_of, after_note};
ghost use Rattle.elf_image.specs.Notes.{is_certificate, certificates_in, listed};
ghost use Rattle.elf_image.specs.File.{is_note, IsInside, program_headers, certificates_at};
ghost use Rattle.elf_image.specs.File.{certificates_of};
ghost use Rattle.elf_image.specs.Faults.{has_two_certificates};

use crate::error::ElfError;
use crate::header::{ProgramHeader, part_of, word_at};
use std::marker::Model;

/// The name of a certificate's note, with its zero byte.
pub const NAME: [u8; 7] = *b"RVVBOX\0";
/// The type of a certificate's note.
pub const CERTIFICATE: u32 = 1;
/// The size of a note's header: `namesz`, `descsz` and `type`.
pub const NOTE_HEADER_SIZE: usize = 12;
/// Where its fields lie.
const N_NAMESZ: usize = 0;

const N_DESCSZ: usize = 4;

const N_TYPE: usize = 8;

/// A note: its name, its descriptor, and its type.
#[derive(Drop)]
struct Note<'a> {
    name: &'a [u8],
    descriptor: &'a [u8],
    kind: u32,
}

impl<'a> Model for Note<'a> {
    ghost use Rattle.elf_image.specs.Notes.{NoteView};

    ghost Value = { NoteView };

    ghost view = { λ a.
        record { name = a.name.now; descriptor = a.descriptor.now; kind = a.kind } };
}

impl<'a> Note<'a> {
    fn is_certificate(&self) -> bool
        ensures { result ≡ is_certificate self.now }
    {
        self.kind == CERTIFICATE && self.name == NAME.as_slice()
    }

    fn into_descriptor(self) -> &'a [u8]
        ensures { result.now ≡ self.entry.descriptor }
    {
        self.descriptor
    }
}

/// So many bytes and the padding that brings them to a multiple of 4.
pub fn padded(n: usize) -> usize
    requires { n < 2 ^ 32 }
    ensures { result ≡ padded n }
{
    (n + 3) / 4 * 4
}

/// How many bytes there have to be for a note.
fn note_size(name_size: usize, descriptor_size: usize) -> usize
    requires name { name_size < 2 ^ 32 }
    requires descriptor { descriptor_size < 2 ^ 32 }
    ensures { result ≡ note_size_of name_size descriptor_size }
{
    if descriptor_size == 0 {
        NOTE_HEADER_SIZE + name_size
    } else {
        NOTE_HEADER_SIZE + padded(name_size) + descriptor_size
    }
}

/// The bytes from an offset on, if there are any.
fn rest_from(bytes: &[u8], offset: usize) -> &[u8]
    ensures { result.now ≡ drop offset bytes.now }
{
    if bytes.len() <= offset {
        return &[];
    }
    &bytes[offset..]
}

/// The note at the front, and the bytes after it and its padding. `None` where no whole note stands there.
#[tactic(auto, unfolding(crate::specs::Notes::has_note, crate::specs::Notes::note_of, crate::specs::Notes::after_note))]
fn split_note(bytes: &[u8]) -> Option<(Note<'_>, &[u8])>
    ensures some { IfSome result (λ p. has_note bytes.now ≡ true) }
    ensures note { IfSome result (λ p. p.0 ≡ note_of bytes.now) }
    ensures rest { IfSome result (λ p. p.1.now ≡ after_note bytes.now) }
    ensures shorter { IfSome result (λ p. length p.1.now < length bytes.now) }
    ensures none { IfNone result (has_note bytes.now ≡ false) }
{
    if bytes.len() < NOTE_HEADER_SIZE {
        return None;
    }
    let name_size = word_at(N_NAMESZ, bytes) as usize;
    let descriptor_size = word_at(N_DESCSZ, bytes) as usize;
    if bytes.len() < note_size(name_size, descriptor_size) {
        return None;
    }
    let descriptor_at = NOTE_HEADER_SIZE + padded(name_size);
    let note = Note {
        name: part_of(bytes, NOTE_HEADER_SIZE, name_size),
        descriptor: part_of(bytes, descriptor_at, descriptor_size),
        kind: word_at(N_TYPE, bytes),
    };
    Some((
        note,
        rest_from(bytes, descriptor_at + padded(descriptor_size)),
    ))
}

/// The first certificate, and the bytes after its note.
#[tactic(auto, using(crate::proofs::Certificates::certificate_first, crate::proofs::Certificates::certificate_later, crate::proofs::Certificates::certificate_none))]
fn first_certificate(bytes: &[u8]) -> Option<(&[u8], &[u8])>
    ensures { MatchOption result (certificates_in bytes.now ≡ [])
        (λ p. certificates_in bytes.now ≡ p.0.now ∷ certificates_in p.1.now) }
{
    let mut rest = bytes;
    while let Some((note, after)) = split_note(rest) {
        if note.is_certificate() {
            return Some((note.into_descriptor(), after));
        }
        rest = after;
    }
    None
}

/// The certificate that was found before, or the one in the bytes of a note segment.
fn add_certificate<'a>(
    found: Option<&'a [u8]>,
    bytes: &'a [u8],
) -> Result<Option<&'a [u8]>, ElfError>
    ensures ok { IfOk result (λ c. listed c ≡ listed found.entry ++ certificates_in bytes.now) }
    ensures err { IfErr result (λ e. e ≡ ElfError.TwoCertificates) }
    ensures several { OnErr result (1 < length (listed found.entry ++ certificates_in bytes.now)) }
{
    match first_certificate(bytes) {
        None => Ok(found),
        Some((first, rest)) => {
            if found.is_some() || first_certificate(rest).is_some() {
                Err(ElfError::TwoCertificates)
            } else {
                Ok(Some(first))
            }
        }
    }
}

/// The certificate in the note segments among these program headers, if there is one.
fn find_certificate<'a>(
    file: &'a [u8],
    headers: &[ProgramHeader],
) -> Result<Option<&'a [u8]>, ElfError>
    requires { All (λ h. is_note h ≡ true → IsInside file.now h) headers.now }
    ensures ok { IfOk result (λ c. listed c ≡ flat_map (certificates_at file.now) headers.now) }
    ensures err { IfErr result (λ e. e ≡ ElfError.TwoCertificates) }
    ensures several { OnErr result (1 < length (flat_map (certificates_at file.now) headers.now)) }
{
    let mut found = None;
    for header in headers {
        if header.is_note() {
            match add_certificate(found, header.file_part(file)) {
                Ok(next) => found = next,
                Err(e) => return Err(e),
            }
        }
    }
    Ok(found)
}

/// The certificate of a file that has these program headers, if it has one.
#[tactic(auto, using(crate::proofs::Certificates::at_most_one), unfolding(crate::specs::File::certificates_of, crate::specs::Faults::has_two_certificates))]
pub fn certificate<'a>(
    file: &'a [u8],
    headers: &[ProgramHeader],
) -> Result<Option<&'a [u8]>, ElfError>
    requires inside { All (λ h. is_note h ≡ true → IsInside file.now h) headers.now }
    requires headers { headers.now ≡ program_headers file.now }
    ensures ok { IfOk result (λ c. option_copied c ≡ slice_get (certificates_of file.now) 0) }
    ensures err { IfErr result (λ e. e ≡ ElfError.TwoCertificates) }
    ensures several { is_err result ≡ has_two_certificates file.now }
{
    find_certificate(file, headers)
}
