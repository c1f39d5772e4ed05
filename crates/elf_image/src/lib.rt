//! Executable files of the ELF standard, 32 bits and little-endian, for RISC-V: what a file becomes in
//! memory, and why a file is refused.
#![tactic(auto)]

mod attached;
mod error;
mod evidence;
mod faults;
mod header;
mod image;
mod laws;
mod layout;
mod note;
mod numbers;
mod reading;
mod segment;

pub use attached::{attach, put_half, put_word};
pub use error::ElfError;
pub use evidence::{ElfEvidence, ElfField, ElfRefusal, Excess, PlacedHeader, SegmentRule};
pub use faults::{
    ELF_HEADER_SIZE, ELFCLASS32, ELFDATA2LSB, EM_RISCV, ET_EXEC, EV_CURRENT, is_too_short,
};
pub use header::{
    E_ENTRY, E_PHNUM, HeaderTable, MAX_PROGRAM_HEADERS, PROGRAM_HEADER_SIZE, ProgramHeader,
    half_at, word_at,
};
pub use image::Image;
pub use laws::{attached_is_read, segments_are_kept};
pub use layout::{
    HIGH_SEGMENTS, HIGH_SEGMENTS_END, LOW_SEGMENTS, LOW_SEGMENTS_END, MAX_FILE_SIZE,
    MAX_MEMORY_SIZE, MAX_SEGMENTS, limits_in_numbers,
};
pub use numbers::{
    executables_in_numbers, header_in_numbers, notes_in_numbers, program_headers_in_numbers,
};
pub use reading::{read, read_kept};
pub use segment::{Rights, Segment};
