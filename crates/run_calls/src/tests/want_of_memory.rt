//! Calls on files and certificates. Each of their allocations fails in turn: the answer is want of
//! memory there. What is wrong with the bytes is answered all the same.
use crate::refusing::Refusing;
use crate::tests::assertions::{assert_same, found, given};
use crate::tests::kernels::{bytes_of, file_of, put};
use crate::tests::readme::RAISE;
use cert_maker::{LoopRow, MakeError, MakeRefusal, make_in, make_kept};
use cert_note::{CertError, Certificate, Vlen};
use elf_image::{ElfError, Image, attach};
use region_mem::{Mode, Param, Parameters};
use sample_kernels::SUM;
use std::alloc::Global;
use std::process::Abort;

/// An allocator that refuses one allocation.
pub(crate) type Heap<'a> = &'a Refusing<Global>;

/// More allocations than any of these calls asks for.
pub(crate) const MANY: u64 = 40;

/// An executable file of three program headers. Code at 0x10000: vsetvli t0,a2,e8,m1,ta,ma;
/// vle8.v v8,(a0); vle8.v v16,(a1); vadd.vv v8,v8,v16; vse8.v v8,(a0); ecall. Four bytes of data
/// and twelve of zeros at 0x20000. A note with the certificate, which ends the file.
const FILE: &str = "\
7f454c460101010000000000000000000200f30001000000000001003400000000000000000000003400200003000000\
00000000010000009400000000000100000000001800000018000000050000000400000001000000ac00000000000200\
000000000400000010000000060000000400000004000000b00000000000000000000000bd000000bd00000004000000\
04000000d772060c0704050207880502570488022704050273000000deadbeef07000000a90000000100000052565642\
4f580000";

/// A certificate of one block, with two facts on registers, one of them equal to a scalar, and
/// one on a vector register.
const CERTIFICATE: &str = "\
010001000203000003000000000000000201000003000000000000000100000003000000030000000000000000000000\
000000000000000000000000000000000000000000000000000000000000000000000000000000000000000000000000\
0000000001000000000001000600000000000000000000020100000001f0fffffff0ffffffff0c030000000300000001\
00000000230100000008080100000000000000000009000000";

/// That file, with the certificate.
pub(crate) fn file(rt: impl Abort + Copy, alloc: Global) -> Vec<u8> {
    let mut file = bytes_of(rt, alloc, FILE);
    let certificate = certificate(rt, alloc);
    given!(rt; file.extend_from_slice(&certificate));
    file
}

/// The bytes of the certificate.
fn certificate(rt: impl Abort + Copy, alloc: Global) -> Vec<u8> {
    bytes_of(rt, alloc, CERTIFICATE)
}

/// What a call answers, with an allocator that serves `after` allocations and refuses the next.
/// Asserts that it has refused one where the answer is an error, and else none, and that some was
/// served.
pub(crate) fn served<T, E>(
    rt: impl Abort + Copy,
    heap: Heap<'_>,
    after: u64,
    answer: Result<T, E>,
) -> Result<T, E> {
    assert_same!(rt; (after, heap.has_refused()), (after, answer.is_err()));
    assert_same!(rt; after == 0 && answer.is_ok(), false);
    answer
}

/// What a call gives that is served, as `served` asserts. Nothing where memory was wanting, and then it asserts that error.
pub(crate) fn given_or_wanting<T, E: PartialEq + Drop>(
    rt: impl Abort + Copy,
    heap: Heap<'_>,
    after: u64,
    answer: Result<T, E>,
    no_memory: E,
) -> Option<T> {
    match served(rt, heap, after, answer) {
        Ok(value) => Some(value),
        Err(error) => {
            assert_same!(rt; error, no_memory);
            None
        }
    }
}

/// Makes a call with allocators until the call tells that it is served. Each allocator serves one more than the last.
pub(crate) fn until_served<F: Fn(Heap<'_>, u64) -> bool>(
    rt: impl Abort + Copy,
    alloc: Global,
    is_served: F,
)
    requires { F.IsAlwaysCallable is_served }
{
    for after in 0..MANY {
        let heap = Refusing::new(alloc, after);
        if is_served(&heap, after) {
            return;
        }
    }
    panic!(rt; "memory is never enough")
}

/// Asserts that the file is read with this certificate, or that memory is wanting, and tells
/// whether it is read.
fn is_image_read(
    rt: impl Abort + Copy,
    heap: Heap<'_>,
    after: u64,
    file: &[u8],
    certificate: &[u8],
) -> bool {
    let answer = elf_image::read(heap, file);
    let Some(image) = given_or_wanting(rt, heap, after, answer, ElfError::NoMemory) else {
        return false;
    };
    assert_same!(rt; image.segments().len(), 2);
    assert_same!(rt; image.certificate(), Some(certificate));
    true
}

/// For a file with wrong flags the fault is answered before any memory is asked for, whichever allocation would be refused.
fn expect_bad_flags(rt: impl Abort + Copy, alloc: Global) {
    let mut bad = file(rt, alloc);
    put(rt, &mut bad, 36, &[1]);
    for after in 0..MANY {
        let heap = Refusing::new(alloc, after);
        assert_same!(rt; elf_image::read(&heap, &bad).err(), Some(ElfError::BadFlags));
        assert_same!(rt; heap.has_refused(), false);
    }
}

/// A list of segments, the bytes of two, and those of the certificate.
#[test]
fn reading_an_image(rt: HostRuntime) {
    let alloc = rt.alloc();
    expect_bad_flags(rt, alloc);
    let file = file(rt, alloc);
    let certificate = certificate(rt, alloc);
    until_served(rt, alloc, |heap, after| {
        is_image_read(rt, heap, after, &file, &certificate)
    });
}

/// Asserts that the file of the sum is given the certificate, or that memory is wanting and the
/// file as it was, and tells whether it is given it. It is then an image of one segment.
fn is_attached(
    rt: impl Abort + Copy,
    alloc: Global,
    heap: Heap<'_>,
    after: u64,
    bare: &[u8],
    certificate: &[u8],
) -> bool {
    let answer = attach(heap, bare, certificate);
    let Some(attached) = given_or_wanting(rt, heap, after, answer, ElfError::NoMemory) else {
        assert_same!(rt; bare, file_of(rt, alloc, SUM.code).as_slice());
        return false;
    };
    let image = given!(rt; elf_image::read(alloc, &attached));
    assert_same!(rt; image.segments().len(), 1);
    assert_same!(rt; image.certificate(), Some(certificate));
    true
}

/// Asserts that a file is given no certificate. The reason is answered before any memory is asked for, whichever allocation
/// would be refused.
fn expect_unattached(rt: impl Abort + Copy, alloc: Global, file: &[u8], fault: ElfError) {
    for after in 0..MANY {
        let heap = Refusing::new(alloc, after);
        assert_same!(rt; attach(&heap, file, b"any").err(), Some(fault));
        assert_same!(rt; heap.has_refused(), false);
    }
}

/// Files that are given no certificate.
#[test]
fn attaching_nothing(rt: HostRuntime) {
    let alloc = rt.alloc();
    let mut large = file_of(rt, alloc, SUM.code);
    given!(rt; large.resize(4 << 20, 0));
    expect_unattached(rt, alloc, b"\x7fELF", ElfError::TooShort);
    expect_unattached(rt, alloc, &large, ElfError::TooLarge);
    expect_unattached(rt, alloc, &file(rt, alloc), ElfError::CertificateThere);
}

/// The bytes of the file that is written. The one that is read stays as it is.
#[test]
fn attaching(rt: HostRuntime) {
    let alloc = rt.alloc();
    let bare = file_of(rt, alloc, SUM.code);
    let certificate = certificate(rt, alloc);
    until_served(rt, alloc, |heap, after| {
        is_attached(rt, alloc, heap, after, &bare, &certificate)
    });
}

/// Asserts that a certificate is spelled so.
fn assert_spelled(
    rt: impl Abort + Copy,
    alloc: Global,
    certificate: &Certificate<Heap<'_>>,
    spelling: &[u8],
) {
    let written = given!(rt; cert_note::write(alloc, certificate));
    assert_same!(rt; written.as_slice(), spelling);
}

/// Asserts that the certificate is read, or that memory is wanting, and tells whether it is read.
fn is_certificate_read(
    rt: impl Abort + Copy,
    alloc: Global,
    heap: Heap<'_>,
    after: u64,
    spelling: &[u8],
) -> bool {
    let answer = cert_note::read(heap, spelling);
    let Some(certificate) = given_or_wanting(rt, heap, after, answer, CertError::NoMemory) else {
        return false;
    };
    assert_spelled(rt, alloc, &certificate, spelling);
    true
}

/// Lists of blocks, of facts on registers, of terms and of facts on vector registers.
#[test]
fn reading_a_certificate(rt: HostRuntime) {
    let alloc = rt.alloc();
    let spelling = certificate(rt, alloc);
    until_served(rt, alloc, |heap, after| {
        is_certificate_read(rt, alloc, heap, after, &spelling)
    });
}

/// Asserts that the certificate is written so, or that memory is wanting, and tells whether it is
/// written.
fn is_written(
    rt: impl Abort + Copy,
    heap: Heap<'_>,
    after: u64,
    certificate: &Certificate,
    spelling: &[u8],
) -> bool {
    match served(rt, heap, after, cert_note::write(heap, certificate)) {
        Ok(written) => {
            assert_same!(rt; written.as_slice(), spelling);
            true
        }
        Err(_) => false,
    }
}

/// A list of bytes, which grows as they come.
#[test]
fn writing_a_certificate(rt: HostRuntime) {
    let alloc = rt.alloc();
    let spelling = certificate(rt, alloc);
    let certificate = given!(rt; cert_note::read(alloc, &spelling));
    until_served(rt, alloc, |heap, after| {
        is_written(rt, heap, after, &certificate, &spelling)
    });
}

/// Asserts that no certificate is made for parameters that are too short: the load's fault is
/// answered before any memory is asked for. The load is kept.
fn expect_unmade(rt: impl Abort + Copy, heap: Heap<'_>, image: &Image, short: &Parameters) {
    let refused = make_in(heap, image, short, Vlen::V128).err();
    assert_same!(rt; refused, Some(MakeError::NotALoopOfTheClass(0x1_0008)));
    let refused = make_kept(heap, image, short, Vlen::V128).err();
    let Some(MakeRefusal::Misfit(misfit)) = refused else {
        panic!(rt; "no misfit");
    };
    assert_same!(rt; misfit.pc, 0x1_0008);
    assert_same!(rt; misfit.word, Some(0x0205_6407));
    assert!(rt; matches!(misfit.row, LoopRow::Access));
    assert_same!(rt; heap.has_refused(), false);
}

/// Asserts that the certificate by hand is made, or that memory is wanting, and tells whether it is
/// made.
fn is_made(
    rt: impl Abort + Copy,
    alloc: Global,
    heap: Heap<'_>,
    after: u64,
    image: &Image,
    parameters: &Parameters,
    by_hand: &[u8],
) -> bool {
    let answer = make_in(heap, image, parameters, Vlen::V128);
    let Some(certificate) = given_or_wanting(rt, heap, after, answer, MakeError::NoMemory) else {
        return false;
    };
    assert_spelled(rt, alloc, &certificate, by_hand);
    true
}

/// These parameters, but with a first buffer of one byte less than the loop of `RAISE` needs.
fn shorter(rt: impl Abort + Copy, parameters: &Parameters) -> Parameters {
    let mut params = parameters.to_array();
    params[0] = Param::Buffer {
        mode: Mode::ReadWrite,
        size: 63,
    };
    found!(rt; Parameters::new(params))
}

/// The list of blocks.
#[test]
fn making_a_certificate(rt: HostRuntime) {
    let alloc = rt.alloc();
    let file = bytes_of(rt, alloc, RAISE);
    let image = given!(rt; elf_image::read(alloc, &file));
    let by_hand = found!(rt; image.certificate());
    let parameters = given!(rt; cert_note::read(alloc, by_hand))
        .contents()
        .parameters;
    let short = shorter(rt, &parameters);
    until_served(rt, alloc, |heap, after| {
        expect_unmade(rt, heap, &image, &short);
        is_made(rt, alloc, heap, after, &image, &parameters, by_hand)
    });
}
