//! The ELF header and the program headers of a file.

ghost use Rattle.std.specs.Prelude.{◌≡◌, ◌≤◌, ◌+◌, ◌*◌, ◌++◌, ◌∷◌, [], ◌<◌, length, take, drop};
ghost use Rattle.std.specs.Prelude.{filter};
ghost use Rattle.elf_image.specs.Words.{half_at, word_at};
ghost use Rattle.elf_image.specs.File.{HasTable, program_header_at, program_headers, is_load};
ghost use Rattle.elf_image.specs.File.{is_note, is_segment, is_executable, is_writable};
ghost use Rattle.elf_image.specs.File.{is_readable, file_part, e_phnum, header_offset};
ghost use Rattle.elf_image.specs.Faults.{is_between, is_dynamic, is_out_of_file, is_out_of_place};
ghost use Rattle.elf_image.specs.Faults.{is_write_and_execute, overlap};

use crate::layout::{HIGH_SEGMENTS, HIGH_SEGMENTS_END, LOW_SEGMENTS, LOW_SEGMENTS_END};
use arrayvec::ArrayVec;
use byteorder::{ByteOrder, LittleEndian};
use std::marker::Model;

/// Where the kind of file lies. This crate reads executables ("ELF Header", `Elf32_Ehdr`).
pub const E_TYPE: usize = 16;

/// Where the architecture lies.
pub const E_MACHINE: usize = 18;

/// Where the version of the standard lies once more.
pub const E_VERSION: usize = 20;

/// Where the address lies at which a run starts.
pub const E_ENTRY: usize = 24;

/// Where the place of the program headers lies.
pub const E_PHOFF: usize = 28;

/// Where the flags of the architecture lie.
pub const E_FLAGS: usize = 36;

/// Where the size of the ELF header lies.
pub const E_EHSIZE: usize = 40;

/// Where the size of a program header lies.
pub const E_PHENTSIZE: usize = 42;

/// Where the number of program headers lies.
pub const E_PHNUM: usize = 44;

/// The size of a program header ("Program Header", `Elf32_Phdr`).
pub const PROGRAM_HEADER_SIZE: u16 = 32;

/// Where the kind of a segment lies, in a program header.
pub const P_TYPE: usize = 0;

/// Where the place of its bytes in the file lies.
pub const P_OFFSET: usize = 4;

/// Where its address in memory lies.
pub const P_VADDR: usize = 8;

/// Where its size in the file lies.
pub const P_FILESZ: usize = 16;

/// Where its size in memory lies.
pub const P_MEMSZ: usize = 20;

/// Where the rights to it lie.
pub const P_FLAGS: usize = 24;

/// How many program headers a file has at most.
pub const MAX_PROGRAM_HEADERS: usize = 64;

/// The `p_type` of a segment that is loaded.
pub const PT_LOAD: u32 = 1;

/// Of what a dynamic linker reads.
pub const PT_DYNAMIC: u32 = 2;

/// Of the path of an interpreter.
pub const PT_INTERP: u32 = 3;

/// Of notes.
pub const PT_NOTE: u32 = 4;

/// Of storage of threads.
pub const PT_TLS: u32 = 7;

/// The bit of `p_flags` that lets a segment be executed.
pub const PF_X: u32 = 1;

/// The one that lets it be written.
pub const PF_W: u32 = 2;

/// The one that lets it be read.
pub const PF_R: u32 = 4;

/// The number in the two bytes at an offset, the lower byte first ("Data Representation", `Elf32_Half`).
#[tactic(auto, unfolding(crate::specs::Words::half_at))]
pub fn half_at(offset: usize, file: &[u8]) -> u16
    requires { offset + 2 ≤ length file.now }
    ensures { result ≡ half_at offset file.now }
{
    LittleEndian::read_u16(&file[offset..])
}

/// The number in the four bytes at an offset, the lowest byte first ("Data Representation", `Elf32_Word`).
#[tactic(auto, unfolding(crate::specs::Words::word_at))]
pub fn word_at(offset: usize, file: &[u8]) -> u32
    requires { offset + 4 ≤ length file.now }
    ensures { result ≡ word_at offset file.now }
{
    LittleEndian::read_u32(&file[offset..])
}

/// So many bytes from an offset on.
pub fn part_of(bytes: &[u8], offset: usize, size: usize) -> &[u8]
    requires { 0 < size → offset + size ≤ length bytes.now }
    ensures { result.now ≡ take size (drop offset bytes.now) }
{
    if size == 0 {
        return &[];
    }
    &bytes[offset..offset + size]
}

/// A program header ("Program Header", `Elf32_Phdr`), without the fields that play no part.
#[derive(Clone, Copy, Default, PartialEq, Eq)]
pub struct ProgramHeader {
    pub p_type: u32,
    pub p_offset: u32,
    pub p_vaddr: u32,
    pub p_filesz: u32,
    pub p_memsz: u32,
    pub p_flags: u32,
}

impl ProgramHeader {
    pub(crate) fn is_load(&self) -> bool
        ensures { result ≡ is_load self.now }
    {
        self.p_type == PT_LOAD
    }

    pub(crate) fn is_note(&self) -> bool
        ensures { result ≡ is_note self.now }
    {
        self.p_type == PT_NOTE
    }

    /// Whether it is that of a loadable segment (`PT_LOAD`) with bytes in memory ("Program Header").
    pub fn is_segment(&self) -> bool
        ensures { result ≡ is_segment self.now }
    {
        self.is_load() && 0 < self.p_memsz
    }

    pub(crate) fn is_executable(&self) -> bool
        ensures { result ≡ is_executable self.now }
    {
        self.p_flags & PF_X != 0
    }

    pub(crate) fn is_writable(&self) -> bool
        ensures { result ≡ is_writable self.now }
    {
        self.p_flags & PF_W != 0
    }

    pub(crate) fn is_readable(&self) -> bool
        ensures { result ≡ is_readable self.now }
    {
        self.p_flags & PF_R != 0
    }

    /// The bytes of the file that are the segment's.
    pub(crate) fn file_part<'a>(&self, file: &'a [u8]) -> &'a [u8]
        requires { 0 < self.now.p_filesz → self.now.p_offset + self.now.p_filesz ≤ length file.now }
        ensures { result.now ≡ file_part file.now self.now }
    {
        part_of(file, self.p_offset as usize, self.p_filesz as usize)
    }

    /// The address after its last byte in memory.
    pub(crate) fn end(&self) -> u64
        ensures { result ≡ self.now.p_vaddr + self.now.p_memsz }
    {
        u64::from(self.p_vaddr) + u64::from(self.p_memsz)
    }

    /// Whether it asks for dynamic linking, an interpreter or thread-local storage ("Program Header": `PT_DYNAMIC`,
    /// `PT_INTERP`, `PT_TLS`).
    pub fn is_dynamic(&self) -> bool
        ensures { result ≡ is_dynamic self.now }
    {
        self.p_type == PT_DYNAMIC || self.p_type == PT_INTERP || self.p_type == PT_TLS
    }

    /// Whether a loadable or note segment has bytes that are not in a file of this size, or a loadable one more in the
    /// file than in memory ("Program Header", `p_filesz`).
    pub fn is_out_of_file(&self, size: u64) -> bool
        ensures { result ≡ is_out_of_file size self.now }
    {
        let end = u64::from(self.p_offset) + u64::from(self.p_filesz);
        (self.is_load() || self.is_note()) && 0 < self.p_filesz && size < end
            || self.is_load() && self.p_memsz < self.p_filesz
    }

    fn is_between(&self, low: u32, high: u32) -> bool
        ensures { result ≡ is_between low high self.now }
    {
        low <= self.p_vaddr && self.end() <= u64::from(high)
    }

    /// Whether its bytes in memory (`p_vaddr`, `p_memsz`) lie in neither of the two parts that are for segments.
    pub fn is_out_of_place(&self) -> bool
        ensures { result ≡ is_out_of_place self.now }
    {
        !(self.is_between(LOW_SEGMENTS, LOW_SEGMENTS_END)
            || self.is_between(HIGH_SEGMENTS, HIGH_SEGMENTS_END))
    }

    /// Whether some address lies in both (`p_vaddr`, `p_memsz`), of two segments that have bytes.
    pub fn overlaps(&self, other: &ProgramHeader) -> bool
        ensures { result ≡ overlap self.now other.now }
    {
        u64::from(self.p_vaddr) < other.end() && u64::from(other.p_vaddr) < self.end()
    }

    /// Whether its bytes may be both written and executed ("Program Header", `PF_W` and `PF_X`).
    pub fn is_write_and_execute(&self) -> bool
        ensures { result ≡ is_write_and_execute self.now }
    {
        self.is_writable() && self.is_executable()
    }
}

/// Where the program header with a number begins in a file: the table begins at `e_phoff` ("ELF Header").
pub fn header_offset(number: usize, file: &[u8]) -> usize
    requires table { HasTable file.now }
    requires there { number < e_phnum file.now }
    ensures { result ≡ header_offset number file.now }
{
    word_at(E_PHOFF, file) as usize + PROGRAM_HEADER_SIZE as usize * number
}

/// The program header at an offset ("Program Header", `Elf32_Phdr`).
pub fn program_header_at(offset: usize, file: &[u8]) -> ProgramHeader
    requires { offset + PROGRAM_HEADER_SIZE ≤ length file.now }
    ensures { result ≡ program_header_at offset file.now }
{
    ProgramHeader {
        p_type: word_at(offset + P_TYPE, file),
        p_offset: word_at(offset + P_OFFSET, file),
        p_vaddr: word_at(offset + P_VADDR, file),
        p_filesz: word_at(offset + P_FILESZ, file),
        p_memsz: word_at(offset + P_MEMSZ, file),
        p_flags: word_at(offset + P_FLAGS, file),
    }
}

/// Program headers, as many as a file may have.
#[derive(Drop)]
pub struct HeaderTable {
    entries: ArrayVec<ProgramHeader, MAX_PROGRAM_HEADERS>,
}

impl Model for HeaderTable {
    ghost use Rattle.std.specs.Prelude.{List, length, ◌≤◌};
    ghost use Rattle.elf_image.specs.declared.header.ProgramHeader.{ProgramHeader};
    ghost use Rattle.elf_image.specs.declared.header.TheConstants.{MAX_PROGRAM_HEADERS};

    ghost Value = { List ProgramHeader };

    ghost view = { λ a. a.entries.items };

    ghost invariant = { λ a. length a.entries.items ≤ MAX_PROGRAM_HEADERS };
}

impl HeaderTable {
    fn new() -> Self
        ensures { result ≡ [] }
    {
        HeaderTable {
            entries: ArrayVec::new(),
        }
    }

    fn push(&mut self, header: ProgramHeader)
        requires { length self.old < MAX_PROGRAM_HEADERS }
        ensures { self.new ≡ self.old ++ header ∷ [] }
    {
        self.entries.push(header);
    }

    /// The headers, in the order of the table.
    pub fn as_slice(&self) -> &[ProgramHeader]
        ensures value { result.now ≡ self.now }
        ensures bound { length self.now ≤ MAX_PROGRAM_HEADERS }
    {
        self.entries.as_slice()
    }

    /// The program headers of a file.
    #[tactic(auto, unfolding(crate::specs::File::program_headers))]
    pub(crate) fn read(file: &[u8]) -> HeaderTable
        requires { HasTable file.now }
        ensures { result ≡ program_headers file.now }
    {
        let count = half_at(E_PHNUM, file) as usize;
        let mut table = HeaderTable::new();
        for i in 0..count {
            table.push(program_header_at(header_offset(i, file), file));
        }
        table
    }

    /// The headers of the segments among them, in their order.
    pub(crate) fn segments(&self) -> HeaderTable
        ensures { result ≡ filter is_segment self.now }
    {
        let mut table = HeaderTable::new();
        for header in self.as_slice() {
            if header.is_segment() {
                table.push(*header);
            }
        }
        table
    }
}
