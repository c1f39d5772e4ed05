//! How a file is given a certificate.
use crate::tests::assertions::{assert_same, found, given};
use crate::tests::fixture::{elf_header, file_of};
use elf_image::{ElfError, attach, read};

/// What stands behind the ELF header of an executable: one program header, and an ecall at 0x10000.
const BEHIND: [u8; 36] = [
    // LOAD: 4 bytes at 0x10000, read and execute.
    1, 0, 0, 0, 84, 0, 0, 0, 0x00, 0x00, 0x01, 0x00, 0x00, 0x00, 0x01, 0x00, //
    4, 0, 0, 0, 4, 0, 0, 0, 5, 0, 0, 0, 4, 0, 0, 0, //
    0x73, 0x00, 0x00, 0x00,
];

/// What stands behind the file once it has the certificate 1, 2, 3, 4, 5: the program headers and the note. The second
/// header is the note's.
const ATTACHED: [u8; 92] = [
    1, 0, 0, 0, 84, 0, 0, 0, 0x00, 0x00, 0x01, 0x00, 0x00, 0x00, 0x01, 0x00, //
    4, 0, 0, 0, 4, 0, 0, 0, 5, 0, 0, 0, 4, 0, 0, 0, //
    // NOTE: 28 bytes at 152.
    4, 0, 0, 0, 152, 0, 0, 0, 0, 0, 0, 0, 0, 0, 0, 0, //
    28, 0, 0, 0, 28, 0, 0, 0, 4, 0, 0, 0, 4, 0, 0, 0, //
    7, 0, 0, 0, 5, 0, 0, 0, 1, 0, 0, 0, 0x52, 0x56, 0x56, 0x42, 0x4f, 0x58, 0, 0, //
    1, 2, 3, 4, 5, 0, 0, 0,
];

#[test]
fn a_certificate_is_attached_and_read_back(rt: HostRuntime) {
    let file = file_of(rt, rt.alloc(), elf_header(0x1_0000, 52, 1), &BEHIND);
    let bytes = given!(rt; attach(rt.alloc(), &file, &[1, 2, 3, 4, 5]));
    let mut expected = file_of(rt, rt.alloc(), elf_header(0x1_0000, 88, 2), &BEHIND);
    given!(rt; expected.extend_from_slice(&ATTACHED));
    assert_same!(rt; bytes.as_slice(), expected.as_slice());
    let image = given!(rt; read(rt.alloc(), bytes.as_slice()));
    assert_same!(rt; image.entry(), 0x10000);
    assert_same!(rt; found!(rt; image.certificate()), [1, 2, 3, 4, 5].as_slice());
    let again = attach(rt.alloc(), bytes.as_slice(), &[]);
    assert_same!(rt; again.err(), Some(ElfError::CertificateThere));
}
