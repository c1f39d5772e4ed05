//! Checks, and the states that they start blocks with. Each of their allocations fails in turn: the
//! answer is want of memory there, what is refused is refused all the same, and the image and the
//! certificate come back as they were.
ghost use Rattle.std.specs.Prelude.{◌<◌, length};

use crate::refusing::Refusing;
use crate::tests::assertions::{assert_same, found, given, opaque};
use crate::tests::kernels::{file_of, parts_of, put};
use crate::tests::want_of_memory::{Heap, MANY, served, until_served};
use abs_state::{Abstract, MOST_WORDS, implies};
use block_checker::{CheckError, check_in};
use cert_note::{Certificate, Vlen, write};
use elf_image::{Image, Segment};
use rv_decode::decode;
use sample_kernels::{Kernel, STORE, SUM};
use std::alloc::Global;
use std::process::Abort;

/// Takes the words from `start` on, and asserts that both ways out of the block are known.
fn expect_words(
    rt: impl Abort + Copy,
    image: &Image,
    state: &mut Abstract<Heap<'_>>,
    start: u32,
    words: u32,
) {
    let mut pc = start;
    for _word in 0..words {
        let insn = found!(rt; decode(found!(rt; image.code_at(pc))));
        if state.words() >= MOST_WORDS {
            panic!(rt; "too many words");
        }
        given!(rt; state.after(pc, &insn));
        pc = pc.wrapping_add(4);
    }
    assert_same!(rt; state.words(), words);
    assert_same!(rt; state.refine(false).is_some(), true);
    assert_same!(rt; state.refine(true).is_some(), true);
}

/// Asserts that what is known at a block is answered or wants memory, and that the words of the
/// block, as many as here, take none. Tells whether it is answered.
fn is_block_known(
    rt: impl Abort + Copy,
    heap: Heap<'_>,
    after: u64,
    kernel: &(Image, Certificate),
    index: usize,
    words: u32,
) -> bool
    requires { index < length kernel.now.1.blocks }
{
    let (image, certificate) = kernel;
    let start = certificate.contents().blocks[index].start;
    match served(
        rt,
        heap,
        after,
        Abstract::at_block(heap, certificate, image, index),
    ) {
        Ok(mut state) => {
            expect_words(rt, image, &mut state, start, words);
            // One more would have been refused.
            assert_same!(rt; heap.has_refused(), false);
            true
        }
        Err(_) => false,
    }
}

/// Asserts so of each number of allocations.
fn expect_block(
    rt: impl Abort + Copy,
    alloc: Global,
    kernel: &(Image, Certificate),
    index: usize,
    words: u32,
)
    requires { index < length kernel.now.1.blocks }
{
    for after in 0..MANY {
        let heap = Refusing::new(alloc, after);
        if is_block_known(rt, &heap, after, kernel, index, words) {
            return;
        }
    }
    panic!(rt; "memory is never enough")
}

/// What is known at a block takes the memory for all that is known behind each of its words: lists
/// of atoms, of forms and of facts on vector registers.
#[test]
fn knowing_a_block(rt: HostRuntime) {
    let alloc = rt.alloc();
    let kernel = parts_of(rt, alloc, SUM, Vlen::V128);
    let words = [1, 5, 1];
    assert_same!(rt; kernel.1.contents().blocks.len(), words.len());
    for (index, words) in words.iter().enumerate() {
        if index < kernel.1.contents().blocks.len() {
            expect_block(rt, alloc, &kernel, index, *words);
        }
    }
}

/// Asserts that the way from the entry leads into the first block.
fn expect_way(
    rt: impl Abort + Copy,
    state: &Abstract<Heap<'_>>,
    image: &Image,
    certificate: &Certificate,
) {
    assert_same!(rt; state.words(), 0);
    let edge = found!(rt; state.refine(false));
    assert_same!(rt; edge.target(), Some(image.entry()));
    let block = certificate.contents().blocks.first();
    assert_same!(rt; implies(&edge, block).is_ok(), true);
}

/// Asserts that what is known at the entry is answered or wants memory, and tells whether it is answered.
fn is_entry_known(
    rt: impl Abort + Copy,
    heap: Heap<'_>,
    after: u64,
    image: &Image,
    certificate: &Certificate,
) -> bool {
    match served(
        rt,
        heap,
        after,
        Abstract::at_entry(heap, certificate, image),
    ) {
        Ok(state) => {
            expect_way(rt, &state, image, certificate);
            // One more would have been refused.
            assert_same!(rt; heap.has_refused(), false);
            true
        }
        Err(_) => false,
    }
}

/// The same lists. The way from there leads into the block at the entry.
#[test]
fn knowing_the_entry(rt: HostRuntime) {
    let alloc = rt.alloc();
    let (image, certificate) = parts_of(rt, alloc, SUM, Vlen::V128);
    until_served(rt, alloc, |heap, after| {
        is_entry_known(rt, heap, after, &image, &certificate)
    });
}

/// What an image and a certificate say: the certificate's bytes, then the entry, the certificate that the image has, and
/// each segment.
fn said(rt: impl Abort + Copy, alloc: Global, image: &Image, certificate: &Certificate) -> Vec<u8> {
    let mut said = given!(rt; write(alloc, certificate));
    given!(rt; said.extend_from_slice(&image.entry().to_le_bytes()));
    let note = image.certificate();
    given!(rt; said.push(u8::from(note.is_some())));
    given!(rt; said.extend_from_slice(note.unwrap_or(&[])));
    for segment in image.segments() {
        say_segment(rt, &mut said, segment);
    }
    said
}

fn say_segment(rt: impl Abort + Copy, said: &mut Vec<u8>, segment: &Segment) {
    let rights = segment.rights();
    given!(rt; said.extend_from_slice(&segment.address().to_le_bytes()));
    given!(rt; said.extend_from_slice(&segment.memory_size().to_le_bytes()));
    let rights = [rights.read, rights.write, rights.execute].map(u8::from);
    given!(rt; said.extend_from_slice(&rights));
    given!(rt; said.extend_from_slice(segment.bytes()));
}

/// Asserts that they say what they said before.
fn assert_said(
    rt: impl Abort + Copy,
    alloc: Global,
    image: &Image,
    certificate: &Certificate,
    before: &[u8],
) {
    let back = said(rt, alloc, image, certificate);
    assert_same!(rt; back.as_slice(), before);
}

/// Whether the check answers at all, and wants no memory: with the fault, or by accepting where
/// there is none.
fn is_answered(
    rt: impl Abort + Copy,
    heap: Heap<'_>,
    after: u64,
    came: Option<CheckError>,
    fault: Option<CheckError>,
) -> bool {
    if heap.has_refused() {
        assert_same!(rt; came, Some(CheckError::NoMemory));
        return false;
    }
    assert_same!(rt; (came, after > 0), (fault, true));
    true
}

/// Checks the kernel, whose fault is this one. Gives it back where memory was refused.
fn checked_again(
    rt: impl Abort + Copy,
    alloc: Global,
    after: u64,
    kernel: (Image, Certificate),
    before: &[u8],
    fault: Option<CheckError>,
) -> Option<(Image, Certificate)> {
    let heap = Refusing::new(alloc, after);
    let (image, certificate) = kernel;
    match opaque(check_in(&heap, image, certificate, Vlen::V128)) {
        Ok(accepted) => {
            assert_said(rt, alloc, accepted.image(), accepted.certificate(), before);
            assert_same!(rt; is_answered(rt, &heap, after, None, fault), true);
            None
        }
        Err((error, image, certificate)) => {
            assert_said(rt, alloc, &image, &certificate, before);
            if is_answered(rt, &heap, after, Some(error), fault) {
                return None;
            }
            Some((image, certificate))
        }
    }
}

/// Asserts that the check of a kernel wants memory where it is refused, and accepts it or tells
/// this fault where it isn't. Tells how many allocations it takes.
fn expect_check(
    rt: impl Abort + Copy,
    alloc: Global,
    kernel: Kernel,
    fault: Option<CheckError>,
) -> u64 {
    let mut kernel = parts_of(rt, alloc, kernel, Vlen::V128);
    let before = said(rt, alloc, &kernel.0, &kernel.1);
    for after in 0..MANY {
        match checked_again(rt, alloc, after, kernel, before.as_slice(), fault) {
            Some(back) => kernel = back,
            None => return after,
        }
    }
    panic!(rt; "memory is never enough")
}

/// What is known at the entry and at a block, one block after the other. The fault of the second
/// block stands behind what is known at the entry and at the first. To keep what is known there takes no more memory.
#[test]
fn checking(rt: HostRuntime) {
    let accepted = expect_check(rt, rt.alloc(), SUM, None);
    let fault = CheckError::ReadOnly(0x1_0004);
    let refused = expect_check(rt, rt.alloc(), STORE, Some(fault));
    assert_same!(rt; refused, accepted);
}

/// Asserts that the check tells this fault, and gives the certificate back.
fn expect_fault(
    rt: impl Abort + Copy,
    heap: Heap<'_>,
    kernel: (Image, Certificate),
    vlen: Vlen,
    fault: CheckError,
) -> Certificate {
    let (image, certificate) = kernel;
    match opaque(check_in(heap, image, certificate, vlen)) {
        Ok(_) => panic!(rt; "accepted"),
        Err((error, _, certificate)) => {
            assert_same!(rt; error, fault);
            certificate
        }
    }
}

/// Faults that are told before any memory is asked for: another length, and an entry at the third word, where no block begins.
#[test]
fn checking_no_block(rt: HostRuntime) {
    let alloc = rt.alloc();
    let heap = Refusing::new(alloc, 0);
    let kernel = parts_of(rt, alloc, SUM, Vlen::V128);
    let certificate = expect_fault(rt, &heap, kernel, Vlen::V256, CheckError::WrongVlen);
    let mut file = file_of(rt, alloc, SUM.code);
    put(rt, &mut file, 24, &[8]);
    let elsewhere = given!(rt; elf_image::read(alloc, &file));
    let kernel = (elsewhere, certificate);
    expect_fault(rt, &heap, kernel, Vlen::V128, CheckError::NoEntryBlock);
    assert_same!(rt; heap.has_refused(), false);
}
