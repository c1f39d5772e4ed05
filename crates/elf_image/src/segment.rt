//! One segment of an image.

ghost use Rattle.std.specs.Prelude.{◌≡◌, true, IfOk, slice_index};
ghost use Rattle.elf_image.specs.Image.{IsSegment, holds_address, holds_code, word_in};
ghost use Rattle.elf_image.specs.File.{IsLoadable, segment_of};

use crate::header::ProgramHeader;
use byteorder::{ByteOrder, LittleEndian};
use std::alloc::{AllocError, Allocator, Global};
use std::marker::Model;

/// What may be done with the bytes of a segment.
#[derive(Clone, Copy, PartialEq, Eq)]
pub struct Rights {
    pub read: bool,
    pub write: bool,
    pub execute: bool,
}

/// A segment: where it lies in memory, its bytes that come from the file, and its rights. Its bytes past
/// those of the file are 0. `A` is the allocator of its bytes.
#[derive(Drop)]
pub struct Segment<A: Allocator = Global> {
    address: u32,
    bytes: Vec<u8, A>,
    memory_size: u32,
    rights: Rights,
}

impl<A: Allocator> Model for Segment<A> {
    ghost use Rattle.elf_image.specs.Image.{SegmentView, IsSegment, segment_with};

    ghost Value = { SegmentView };

    ghost view = { λ a. segment_with a.address a.bytes.items a.memory_size a.rights };

    ghost invariant = { λ a.
        IsSegment (segment_with a.address a.bytes.items a.memory_size a.rights) };
}

impl<A: Allocator> Segment<A> {
    /// The segment of a program header, with its bytes copied from the file.
    #[tactic(auto, unfolding(crate::specs::File::segment_of))]
    pub(crate) fn load(
        alloc: A,
        file: &[u8],
        header: &ProgramHeader,
    ) -> Result<Segment<A>, AllocError>
        requires { IsLoadable file.now header.now }
        ensures { IfOk result (λ segment. segment ≡ segment_of file.now header.now) }
    {
        let bytes = Vec::from_slice(alloc, header.file_part(file))?;
        Ok(Segment {
            address: header.p_vaddr,
            bytes,
            memory_size: header.p_memsz,
            rights: Rights {
                read: header.is_readable(),
                write: header.is_writable(),
                execute: header.is_executable(),
            },
        })
    }

    /// The address of the first byte (`p_vaddr`).
    pub fn address(&self) -> u32
        ensures value { result ≡ self.now.address }
        // What is true of each segment.
        ensures segment { IsSegment self.now }
    {
        self.address
    }

    /// The bytes that come from the file, from the first on.
    pub fn bytes(&self) -> &[u8]
        ensures value { result.now ≡ self.now.bytes }
        // What is true of each segment.
        ensures segment { IsSegment self.now }
    {
        self.bytes.as_slice()
    }

    /// How many bytes the segment has in memory (`p_memsz`).
    pub fn memory_size(&self) -> u32
        ensures value { result ≡ self.now.memory_size }
        // What is true of each segment.
        ensures segment { IsSegment self.now }
    {
        self.memory_size
    }

    /// What may be done with its bytes (`p_flags`).
    pub fn rights(&self) -> Rights
        ensures read { result.read ≡ self.now.read }
        ensures write { result.write ≡ self.now.write }
        ensures execute { result.execute ≡ self.now.execute }
        // What is true of each segment.
        ensures segment { IsSegment self.now }
    {
        self.rights
    }

    /// Whether an address lies in the segment.
    pub fn contains(&self, address: u32) -> bool
        ensures { result ≡ holds_address address self.now }
    {
        let Segment {
            address: first,
            memory_size: size,
            ..
        } = self;
        *first <= address && address - *first < *size
    }

    /// Whether the segment may be executed, and the four bytes from an address on lie in it.
    pub(crate) fn holds_code(&self, address: u32) -> bool
        ensures { result ≡ holds_code address self.now }
    {
        let Segment {
            address: first,
            memory_size: size,
            rights: Rights { execute, .. },
            ..
        } = self;
        *execute && *first <= address && *size >= 4 && address - *first <= *size - 4
    }

    /// The byte at an offset: 0 past the bytes of the file.
    fn byte(&self, offset: usize) -> u8
        ensures { result ≡ slice_index self.now.bytes offset }
    {
        match self.bytes.get(offset) {
            Some(byte) => *byte,
            None => 0,
        }
    }

    /// The word in the four bytes from an address on, the lowest byte first: 0 past the bytes of the file.
    #[tactic(auto, unfolding(crate::specs::Image::word_in))]
    pub(crate) fn word(&self, address: u32) -> u32
        requires { holds_code address self.now ≡ true }
        ensures { result ≡ word_in address self.now }
    {
        let at = (address - self.address) as usize;
        LittleEndian::read_u32(&[
            self.byte(at),
            self.byte(at + 1),
            self.byte(at + 2),
            self.byte(at + 3),
        ])
    }
}
