//! Why certificates and images are refused: those of the kernel that sums bytes, with a byte changed.
use crate::tests::assertions::{assert_shows, found, given};
use cert_note::{Budget, Vlen, read_kept};
use check_reasons::{CheckReason, check_reason};
use explanations::refusal_reason;
use hex::decode;
use sample_kernels::SUM;
use std::alloc::Global;
use std::process::Abort;

/// The kernel's file: its header, its program header and its code, without a certificate.
const FILE: &str = "\
7f454c460101010000000000000000000200f30001000000000001003400000000000000000000003400200001000000\
00000000010000005400000000000100000001001c0000001c0000000500000004000000638c05008342050013051500\
330656009385f5ffe39805fe67800000";

/// The bytes that digits spell, with the one at a place changed.
fn changed(rt: impl Abort + Copy, alloc: Global, digits: &str, place: usize, byte: u8) -> Vec<u8> {
    let mut bytes = given!(rt; decode(alloc, digits));
    *found!(rt; bytes.get_mut(place)) = byte;
    bytes
}

/// The start of the second block is below that of the first.
#[test]
fn tells_a_place_in_a_certificate(rt: HostRuntime) {
    let bytes = changed(rt, rt.alloc(), SUM.certificate, 169, 0);
    let refusal = found!(rt; read_kept(rt.alloc(), &bytes).err());
    let reason = refusal_reason(&bytes, refusal);
    let expected = "  reading stopped behind byte 171 of 261
  the last bytes read: 0x04 0x00 0x00 0x00
  in block 1, counted from 0
  wanted: a multiple of 4 above the start of the block before
";
    assert_shows(rt, rt.alloc(), reason, expected);
}

#[test]
fn tells_a_budget(rt: HostRuntime) {
    let budget = Budget {
        constant: 1,
        factor: 2,
        register: 10,
        second_factor: 3,
        second_register: 11,
    };
    assert_shows(rt, rt.alloc(), budget, "1 + 2 * x10 + 3 * x11");
}

/// The reason against the image and the certificate of the kernel's file with a byte changed.
fn told(rt: impl Abort + Copy, alloc: Global, place: usize, byte: u8) -> Option<CheckReason> {
    let file = changed(rt, alloc, FILE, place, byte);
    let image = given!(rt; elf_image::read(alloc, &file));
    let bytes = given!(rt; decode(alloc, SUM.certificate));
    let certificate = given!(rt; cert_note::read(alloc, &bytes));
    given!(rt; check_reason(alloc, &image, &certificate, Vlen::V128))
}

/// lbu t0,4(a0): the last bytes lie behind the buffer. lbu t0,0(a0), as it is: there is no reason where it passes.
#[test]
fn tells_a_word_of_an_image(rt: HostRuntime) {
    let expected = "  stopped in the block at 0x00010004
  at 0x00010004: 0x00454283
  that is lbu rd=5 rs1=10 imm=4
  known: x10 in 0x40000000..=0x400003ff
  bytes of the access: 1
  offset from the base: 4
  known: its bytes in 0x40000004..=0x40000403
  wanted: all bytes in one of these zones that may be read
    segment 0, from 0x00010000 and below 0x0001001c: read
    stack, from 0x2fff0000 and below 0x30000000: read and write
    a0, from 0x40000000 and below 0x40000400: read
";
    let reason = found!(rt; told(rt, rt.alloc(), 90, 0x45));
    assert_shows(rt, rt.alloc(), reason, expected);
    assert!(rt; told(rt, rt.alloc(), 90, 0x05).is_none());
}
