//! What a file becomes in memory.

ghost use Rattle.std.specs.Prelude.{◌≡◌, ◌+◌, ◌≤◌, All, IfOk, IfSome, map, position, option_map};
ghost use Rattle.std.specs.Prelude.{option_copied, slice_get};
ghost use Rattle.elf_image.specs.Image.{IsImage, holds_address, code_at};
ghost use Rattle.elf_image.specs.File.{HasTable, HasImage, IsLoadable, segment_of, segment_headers};
ghost use Rattle.elf_image.specs.File.{certificates_of, image_of};

use crate::header::{E_ENTRY, ProgramHeader, word_at};
use crate::segment::Segment;
use std::alloc::{AllocError, Allocator, Global};
use std::marker::Model;

/// What a file becomes in memory: its entry, its segments in the order of their program headers, and its
/// certificate. `A` is the allocator of their bytes.
#[derive(Drop)]
pub struct Image<A: Allocator = Global> {
    entry: u32,
    segments: Vec<Segment<A>, A>,
    certificate: Option<Vec<u8, A>>,
}

impl<A: Allocator> Model for Image<A> {
    ghost use Rattle.std.specs.Prelude.{option_map};
    ghost use Rattle.elf_image.specs.Image.{ImageView, IsImage};

    ghost Value = { ImageView };

    ghost view = { λ a. record {
      entry = a.entry;
      segments = a.segments.items;
      certificate = option_map (λ v. v.items) a.certificate;
    } };

    ghost invariant = { λ a. IsImage (record {
      entry = a.entry;
      segments = a.segments.items;
      certificate = option_map (λ v. v.items) a.certificate;
    }) };
}

fn load_segments<A: Allocator + Copy>(
    alloc: A,
    file: &[u8],
    headers: &[ProgramHeader],
) -> Result<Vec<Segment<A>, A>, AllocError>
    requires { All (IsLoadable file.now) headers.now }
    ensures { IfOk result (λ segments. segments.items ≡ map (segment_of file.now) headers.now) }
{
    let mut segments = Vec::with_capacity(alloc, headers.len())?;
    for header in headers {
        segments.push(Segment::load(alloc, file, header)?)?;
    }
    Ok(segments)
}

fn copy_certificate<A: Allocator>(
    alloc: A,
    certificate: Option<&[u8]>,
) -> Result<Option<Vec<u8, A>>, AllocError>
    ensures { IfOk result (λ c. option_map (λ v. v.items) c ≡ option_copied certificate.entry) }
{
    match certificate {
        Some(bytes) => Ok(Some(Vec::from_slice(alloc, bytes)?)),
        None => Ok(None),
    }
}

impl<A: Allocator + Copy> Image<A> {
    /// The image of a file with these headers of segments and this certificate.
    #[tactic(auto, unfolding(crate::specs::File::image_of))]
    pub(crate) fn load(
        alloc: A,
        file: &[u8],
        headers: &[ProgramHeader],
        certificate: Option<&[u8]>,
    ) -> Result<Image<A>, AllocError>
        requires table { HasTable file.now }
        requires image { HasImage file.now }
        requires headers { headers.now ≡ segment_headers file.now }
        requires certificate { option_copied certificate ≡ slice_get (certificates_of file.now) 0 }
        ensures { IfOk result (λ image. image ≡ image_of file.now) }
    {
        let segments = load_segments(alloc, file, headers)?;
        let certificate = copy_certificate(alloc, certificate)?;
        Ok(Image {
            entry: word_at(E_ENTRY, file),
            segments,
            certificate,
        })
    }
}

impl<A: Allocator> Image<A> {
    /// The address of the first instruction (`e_entry`).
    pub fn entry(&self) -> u32
        ensures value { result ≡ self.now.entry }
        // What is true of each image.
        ensures image { IsImage self.now }
    {
        self.entry
    }

    /// The segments, in the order of their program headers.
    pub fn segments(&self) -> &[Segment<A>]
        ensures value { result.now ≡ self.now.segments }
        // What is true of each image.
        ensures image { IsImage self.now }
    {
        self.segments.as_slice()
    }

    /// The certificate, if the file has one.
    pub fn certificate(&self) -> Option<&[u8]>
        ensures { option_map (λ bytes. bytes.now) result ≡ self.now.certificate }
    {
        match &self.certificate {
            Some(bytes) => Some(bytes.as_slice()),
            None => None,
        }
    }

    /// The place, in `segments`, of the segment in which an address lies. There is at most one.
    pub fn segment_at(&self, address: u32) -> Option<usize>
        ensures { result ≡ position (holds_address address) self.now.segments }
    {
        self.segments.iter().position(|s| s.contains(address))
    }

    /// The word of code at an address: the number in the four bytes from there on, the lowest byte first, where they lie
    /// in one segment that may be executed. Bytes past those of the file are 0.
    #[tactic(auto, unfolding(crate::specs::Image::code_at))]
    pub fn code_at(&self, address: u32) -> Option<u32>
        ensures value { result ≡ code_at address self.now }
        // So the address after it is a number of 32 bits too.
        ensures low { IfSome result (λ _. address + 4 ≤ 0xC000_0000) }
    {
        let segment = self.segments.iter().find(|s| s.holds_code(address))?;
        Some(segment.word(address))
    }
}
