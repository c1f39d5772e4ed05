//! The memory in which single steps are taken: a word of code, and two buffers. One of the buffers may be written.

use crate::arguments::{Given, regions};
use crate::fields::{RowError, bytes};
use crate::state::{Difference, Part, differ};
use elf_image::Image;
use region_mem::{Mode, Regions};
use std::alloc::Global;

/// Where the code lies: one word, ecall.
pub const CODE: u32 = 0x1_0000;

/// Where the first buffer lies.
pub const FIRST: u32 = 0x4000_0000;

/// Where the second buffer lies, which may only be read.
const SECOND: u32 = 0x4000_2000;

/// How many words each buffer has.
const WORDS: u32 = 1024;

/// An executable file of one segment with the code.
const IMAGE: &str = "\
7f454c460101010000000000000000000200f30001000000000001003400000000000000000000003400200001000000\
00000000010000005400000000000100000001000400000004000000050000000010000073000000";

/// The image of the code.
pub(crate) fn image(alloc: Global) -> Result<Image, RowError> {
    let file = bytes(alloc, IMAGE)?;
    elf_image::read(alloc, file.as_slice()).map_err(|_| RowError::NoMemory)
}

/// What byte i of either buffer is before a step.
fn byte_before(i: u32) -> u8 {
    let i = i % (4 * WORDS);
    ((73 * i + 11 * (i / 256) + 5) % 256) as u8
}

/// What the byte at an address is before a step.
fn byte_at(address: u32) -> u8 {
    let start = address - address % (4 * WORDS);
    if start == FIRST || start == SECOND {
        byte_before(address)
    } else {
        0
    }
}

/// What the word at an address in either buffer is before a step.
fn word_at(address: u32) -> u32 {
    let [a, b, c, d] = [0, 1, 2, 3].map(|i| byte_before(address.wrapping_add(i)));
    u32::from_le_bytes([a, b, c, d])
}

/// The bytes of a buffer before a step.
fn buffer(alloc: Global) -> Result<Vec<u8>, RowError> {
    let mut buffer = Vec::with_capacity(alloc, 4 * WORDS as usize)?;
    for i in 0..4 * WORDS {
        buffer.push(byte_before(i))?;
    }
    Ok(buffer)
}

/// The memory before a step.
pub(crate) fn memory(alloc: Global, image: &Image) -> Result<Regions, RowError> {
    let mut given = Given::none();
    given.put_buffer(0, Mode::ReadWrite, buffer(alloc)?);
    given.put_buffer(1, Mode::Read, buffer(alloc)?);
    regions(alloc, image, given)
}

/// Compares the bytes from an address on with those that are expected there, and makes them what they were before the
/// step.
pub(crate) fn take_back(memory: &mut Regions, address: u32, expected: &[u8]) -> Option<Difference> {
    let mut found = None;
    let mut at = address;
    for byte in expected {
        let came = memory.byte(at);
        if came != Some(*byte) && found.is_none() {
            found = differ(
                Part::Memory(at),
                u32::from(*byte),
                came.map_or(u32::MAX, u32::from),
            );
        }
        memory.store(at, 1, u32::from(byte_at(at)));
        at = at.wrapping_add(1);
    }
    found
}

/// The first word of the buffers that is not what it was before the step. All are made so.
pub(crate) fn changed(memory: &mut Regions) -> Option<Difference> {
    let mut found = None;
    for i in 0..WORDS {
        found = found.or(changed_word(memory, FIRST + 4 * i));
        found = found.or(changed_word(memory, SECOND + 4 * i));
    }
    found
}

fn changed_word(memory: &mut Regions, address: u32) -> Option<Difference> {
    let before = word_at(address);
    let came = memory.load(address, 4);
    if came == Some(before) {
        return None;
    }
    memory.store(address, 4, before);
    differ(Part::Memory(address), before, came.unwrap_or(0))
}
