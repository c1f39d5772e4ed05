//! The memory of a run without arguments, in which steps and accesses are tried.

use crate::tests::assertions::{found, given};
use elf_image::read;
use region_mem::{Args, Param, Parameters, Regions};
use std::alloc::Global;
use std::process::Abort;

/// The ELF header of an executable for RISC-V that is entered at `entry` and has `headers` program headers.
pub(crate) fn elf_header(entry: u32, headers_at: u8, headers: u8) -> [u8; 52] {
    let [e0, e1, e2, e3] = entry.to_le_bytes();
    [
        0x7f, 0x45, 0x4c, 0x46, 1, 1, 1, 0, 0, 0, 0, 0, 0, 0, 0, 0, // e_ident
        2, 0, 243, 0, 1, 0, 0, 0, // e_type, e_machine, e_version
        e0, e1, e2, e3, headers_at, 0, 0, 0, 0, 0, 0, 0, // e_entry, e_phoff, e_shoff
        0, 0, 0, 0, 52, 0, 32, 0, headers, 0, 0, 0, 0, 0, 0, 0, // e_flags up to e_shstrndx
    ]
}

/// A file with this header and these bytes behind it.
pub(crate) fn file_of(
    rt: impl Abort + Copy,
    alloc: Global,
    header: [u8; 52],
    behind: &[u8],
) -> Vec<u8> {
    let mut file = given!(rt; Vec::from_slice(alloc, &header));
    given!(rt; file.extend_from_slice(behind));
    file
}

/// What stands behind the header of an executable with a word at 0x1000, and sixteen bytes at 0x2000
/// that may be read and written.
const BEHIND: [u8; 84] = [
    // LOAD: 4 bytes at 0x1000, read and execute.
    1, 0, 0, 0, 116, 0, 0, 0, 0x00, 0x10, 0x00, 0x00, 0x00, 0x10, 0x00, 0x00, //
    4, 0, 0, 0, 4, 0, 0, 0, 5, 0, 0, 0, 4, 0, 0, 0, //
    // LOAD: 16 bytes at 0x2000, read and write.
    1, 0, 0, 0, 120, 0, 0, 0, 0x00, 0x20, 0x00, 0x00, 0x00, 0x20, 0x00, 0x00, //
    16, 0, 0, 0, 16, 0, 0, 0, 6, 0, 0, 0, 4, 0, 0, 0, //
    0x73, 0x00, 0x00, 0x00, // ecall
    0x01, 0x02, 0xfe, 0xff, 0x05, 0x06, 0x07, 0x08, 0x09, 0x0a, 0x0b, 0x0c, 0x0d, 0x0e, 0x0f, 0x10,
];

/// The memory in which it starts.
pub(crate) fn memory(rt: impl Abort + Copy, alloc: Global) -> Regions {
    let file = file_of(rt, alloc, elf_header(0x1000, 52, 2), &BEHIND);
    let image = given!(rt; read(alloc, &file));
    let parameters = found!(rt; Parameters::new([Param::None; 8]));
    let args = Args::none();
    if parameters.matches(&args).is_err() {
        panic!(rt; "no match");
    }
    given!(rt; Regions::new(alloc, &image, &parameters, args))
}
