//! A file as an image.

ghost use Rattle.std.specs.Prelude.{◌≡◌, IfSome, IfNone, MatchResult};
ghost use Rattle.elf_image.specs.Evidence.{refusal_of};
ghost use Rattle.elf_image.specs.File.{image_of};
ghost use Rattle.elf_image.specs.Faults.{fault_of};

use crate::error::ElfError;
use crate::evidence::{ElfEvidence, ElfRefusal};
use crate::faults::{check_header_kept, check_segments_kept};
use crate::header::HeaderTable;
use crate::image::Image;
use crate::note::certificate;
use std::alloc::Allocator;

/// Reads an executable file as [`read`] does, and tells of one that is refused what is known of it: which number is
/// wrong, and where it stands.
///
/// `alloc` gives the memory for the list of segments, the bytes of each, and those of the certificate.
#[tactic(auto, unfolding(crate::specs::Faults::fault_of))]
pub fn read_kept<A: Allocator + Copy>(alloc: A, file: &[u8]) -> Result<Image<A>, ElfRefusal>
    // The first fault of the file is the answer, with what is known of it.
    ensures refused { IfSome (fault_of file.now)
        (λ e. result ≡ Err (refusal_of file.now e)) }
    // A file without fault is read as the image that it has, unless memory runs out.
    ensures image { IfNone (fault_of file.now)
        (MatchResult result (λ image. image ≡ image_of file.now)
        (λ refusal. refusal ≡ refusal_of file.now ElfError.NoMemory)) }
{
    check_header_kept(file)?;
    let headers = HeaderTable::read(file);
    let segments = headers.segments();
    check_segments_kept(file, &headers, &segments)?;
    match certificate(file, headers.as_slice()) {
        Ok(certificate) => Ok(Image::load(alloc, file, segments.as_slice(), certificate)?),
        Err(error) => Err(ElfRefusal {
            error,
            evidence: ElfEvidence::Certificates,
        }),
    }
}

/// Reads an executable file: its entry, its segments with their bytes, and its certificate. The layout
/// is that of the ELF standard, "ELF Header", "Program Header" and "Note Section", at 32 bits.
///
/// A file is refused for the first reason, in the order of `ElfError`, that holds; there each variant
/// says when. Every reason but `NoMemory` is looked for before any memory is asked for.
///
/// The certificate is the descriptor of the note of type 1 whose name is `RVVBOX` with its zero byte.
///
/// `alloc` gives the memory for the list of segments, the bytes of each, and those of the certificate.
pub fn read<A: Allocator + Copy>(alloc: A, file: &[u8]) -> Result<Image<A>, ElfError>
    // The first fault of the file is the answer.
    ensures refused { IfSome (fault_of file.now) (λ e. result ≡ Err e) }
    // A file without fault is read as the image that it has, unless memory runs out.
    ensures image { IfNone (fault_of file.now)
        (MatchResult result (λ image. image ≡ image_of file.now) (λ e. e ≡ ElfError.NoMemory)) }
{
    match read_kept(alloc, file) {
        Ok(image) => Ok(image),
        Err(refusal) => Err(refusal.error),
    }
}
