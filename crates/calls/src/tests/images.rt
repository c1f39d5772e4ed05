//! How a file is read.
use crate::tests::assertions::{assert_same, assert_text, found, given};
use crate::tests::fixture::{elf_header, file_of};
use elf_image::*;
use std::alloc::Global;
use std::process::Abort;

/// What stands behind the ELF header of an executable as the standard lays it out: three program
/// headers, code, data, a note.
///
/// The code is vsetvli t0,a2,e8,m1,ta,ma; vle8.v v8,(a0); vle8.v v16,(a1); vadd.vv v8,v8,v16;
/// vse8.v v8,(a0); ecall.
const BEHIND: [u8; 148] = [
    // LOAD: 24 bytes at 0x10000, read and execute.
    1, 0, 0, 0, 148, 0, 0, 0, 0x00, 0x00, 0x01, 0x00, 0x00, 0x00, 0x01, 0x00, //
    24, 0, 0, 0, 24, 0, 0, 0, 5, 0, 0, 0, 4, 0, 0, 0, //
    // LOAD: 4 bytes of file and 16 of memory at 0x20000, read and write.
    1, 0, 0, 0, 172, 0, 0, 0, 0x00, 0x00, 0x02, 0x00, 0x00, 0x00, 0x02, 0x00, //
    4, 0, 0, 0, 16, 0, 0, 0, 6, 0, 0, 0, 4, 0, 0, 0, //
    // NOTE.
    4, 0, 0, 0, 176, 0, 0, 0, 0, 0, 0, 0, 0, 0, 0, 0, //
    24, 0, 0, 0, 24, 0, 0, 0, 4, 0, 0, 0, 4, 0, 0, 0, //
    // The code.
    0xd7, 0x72, 0x06, 0x0c, 0x07, 0x04, 0x05, 0x02, 0x07, 0x88, 0x05, 0x02, //
    0x57, 0x04, 0x88, 0x02, 0x27, 0x04, 0x05, 0x02, 0x73, 0x00, 0x00, 0x00, //
    // The data.
    0xde, 0xad, 0xbe, 0xef, //
    // The note: RVVBOX with its zero byte, type 1, a descriptor of four bytes.
    7, 0, 0, 0, 4, 0, 0, 0, 1, 0, 0, 0, 0x52, 0x56, 0x56, 0x42, 0x4f, 0x58, 0, 0, //
    1, 2, 3, 4,
];

#[test]
fn reads_a_file(rt: HostRuntime) {
    let file = file_of(rt, rt.alloc(), elf_header(0x1_0000, 52, 3), &BEHIND);
    let image = given!(rt; read(rt.alloc(), &file));
    assert_same!(rt; image.entry(), 0x10000);
    assert_same!(rt; image.segments().len(), 2);
    expect_data(rt, found!(rt; image.segments().get(1)));
    assert_same!(rt; image.segment_at(0x10017), Some(0));
    assert_same!(rt; image.segment_at(0x10018), None);
    for k in 0..WORDS.len() {
        let (address, word) = WORDS[k];
        assert_same!(rt; image.code_at(address), word);
    }
    assert_same!(rt; found!(rt; image.certificate()), [1, 2, 3, 4].as_slice());
}

/// What is fetched at an address: vsetvli, ecall, a word that passes the end of the code, and data.
const WORDS: [(u32, Option<u32>); 4] = [
    (0x10000, Some(0x0c06_72d7)),
    (0x10014, Some(0x0000_0073)),
    (0x10015, None),
    (0x20000, None),
];

fn expect_data(rt: impl Abort + Copy, data: &Segment) {
    assert_same!(rt; data.address(), 0x20000);
    assert_same!(rt; data.memory_size(), 16);
    assert_same!(rt; data.bytes(), [0xde, 0xad, 0xbe, 0xef].as_slice());
    let rights = Rights {
        read: true,
        write: true,
        execute: false,
    };
    assert_same!(rt; data.rights(), rights);
    assert_same!(rt; data.contains(0x2000f), true);
}

/// The file with one other byte.
fn changed_file(
    rt: impl Abort + Copy,
    alloc: Global,
    headers: u8,
    place: usize,
    byte: u8,
) -> Vec<u8> {
    let mut file = file_of(rt, alloc, elf_header(0x1_0000, 52, headers), &BEHIND);
    *found!(rt; file.get_mut(place)) = byte;
    file
}

/// Why that file is refused.
fn refusal(rt: impl Abort + Copy, alloc: Global, place: usize, byte: u8) -> ElfRefusal {
    let file = changed_file(rt, alloc, 3, place, byte);
    found!(rt; read_kept(alloc, &file).err())
}

/// The file of another machine, with a faulty table besides.
#[test]
fn tells_why_a_file_is_refused(rt: HostRuntime) {
    let file = changed_file(rt, rt.alloc(), 0, 18, 62);
    let error = found!(rt; read(rt.alloc(), &file).err());
    assert_same!(rt; error, ElfError::BadMachine);
    assert_text(rt, rt.alloc(), &error, "the file is not for RISC-V");
}

/// The machine's field is two bytes at 18 ("ELF Header"), where 62 is that of x86-64.
#[test]
fn keeps_the_field_that_is_wrong(rt: HostRuntime) {
    let refusal = refusal(rt, rt.alloc(), 18, 62);
    assert_same!(rt; refusal.error, ElfError::BadMachine);
    let ElfEvidence::Field { offset, value, .. } = refusal.evidence else {
        panic!(rt; "no field");
    };
    assert_same!(rt; offset, 18);
    assert_same!(rt; value, 62);
}

/// The header of the data is the second, which begins at byte 84; its address is set to that of the code.
#[test]
fn keeps_the_segments_that_overlap(rt: HostRuntime) {
    let refusal = refusal(rt, rt.alloc(), 94, 1);
    assert_same!(rt; refusal.error, ElfError::SegmentsOverlap);
    let ElfEvidence::Overlap { first, second } = refusal.evidence else {
        panic!(rt; "no overlap");
    };
    assert_same!(rt; first.number, 0);
    assert_same!(rt; second.number, 1);
    assert_same!(rt; second.offset, 84);
    assert_same!(rt; second.fields.p_vaddr, 0x1_0000);
}

/// The segment of the data, in a file of 176 bytes, and that of the code.
const DATA: ProgramHeader = ProgramHeader {
    p_type: 1,
    p_offset: 172,
    p_vaddr: 0x2_0000,
    p_filesz: 4,
    p_memsz: 16,
    p_flags: 6,
};

const CODE: ProgramHeader = ProgramHeader {
    p_type: 1,
    p_offset: 148,
    p_vaddr: 0x1_0000,
    p_filesz: 24,
    p_memsz: 24,
    p_flags: 5,
};

fn expect_header(rt: impl Abort + Copy, data: &ProgramHeader, code: &ProgramHeader) {
    assert_same!(rt; data.is_segment(), true);
    assert_same!(rt; data.is_dynamic(), false);
    assert_same!(rt; data.is_out_of_file(176), false);
    assert_same!(rt; data.is_out_of_file(175), true);
    assert_same!(rt; data.is_out_of_place(), false);
    assert_same!(rt; data.overlaps(code), false);
    assert_same!(rt; data.is_write_and_execute(), false);
}

#[test]
fn reads_headers_and_writes_numbers(rt: HostRuntime) {
    let header = elf_header(0x1_0000, 52, 3);
    assert_same!(rt; half_at(18, &header), 243);
    assert_same!(rt; word_at(24, &header), 0x1_0000);
    expect_header(rt, &DATA, &CODE);
    let mut out = Vec::new(rt.alloc());
    given!(rt; put_half(&mut out, 0x0102));
    given!(rt; put_word(&mut out, 0x0304_0506));
    assert_same!(rt; out.as_slice(), [2, 1, 6, 5, 4, 3].as_slice());
}

/// An ELF header has 52 bytes.
#[test]
fn finds_a_file_too_short(rt: HostRuntime) {
    let header = elf_header(0x1_0000, 52, 3);
    assert_same!(rt; is_too_short(&header), false);
    assert_same!(rt; is_too_short(&[0x7f, 0x45, 0x4c, 0x46]), true);
}
