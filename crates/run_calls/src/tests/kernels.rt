//! The files, images and certificates of the kernels of `sample_kernels`, as several tests want them.
use crate::tests::assertions::{found, given};
use block_checker::{Accepted, check};
use cert_note::{Certificate, Vlen};
use elf_image::Image;
use hex::decode;
use sample_kernels::{HEADERS, Kernel};
use std::alloc::Global;
use std::process::Abort;

/// The bytes that digits spell.
pub(crate) fn bytes_of(rt: impl Abort + Copy, alloc: Global, digits: &str) -> Vec<u8> {
    given!(rt; decode(alloc, digits))
}

/// Puts bytes at a place, which they end within what is there.
pub(crate) fn put(rt: impl Abort + Copy, bytes: &mut [u8], place: usize, others: &[u8]) {
    let mut place = place;
    for other in others {
        *found!(rt; bytes.get_mut(place)) = *other;
        place = place.saturating_add(1);
    }
}

/// A file with these words at 0x10000, which is its entry.
pub(crate) fn file_of(rt: impl Abort + Copy, alloc: Global, words: &str) -> Vec<u8> {
    let mut code = Vec::new(alloc);
    for word in words.split_whitespace() {
        let word = given!(rt; u32::from_str_radix(word, 16));
        given!(rt; code.extend_from_slice(&word.to_le_bytes()));
    }
    let size = u32::try_from(code.len()).unwrap_or(0).to_le_bytes();
    let mut file = bytes_of(rt, alloc, HEADERS);
    given!(rt; file.extend_from_slice(&size));
    given!(rt; file.extend_from_slice(&size));
    given!(rt; file.extend_from_slice(&[5, 0, 0, 0, 4, 0, 0, 0]));
    given!(rt; file.extend_from_slice(&code));
    file
}

/// The image of that file.
pub(crate) fn image_of(rt: impl Abort + Copy, alloc: Global, words: &str) -> Image {
    let file = file_of(rt, alloc, words);
    given!(rt; elf_image::read(alloc, &file))
}

/// The kernel's image, and its certificate for a length of vector registers.
pub(crate) fn parts_of(
    rt: impl Abort + Copy,
    alloc: Global,
    kernel: Kernel,
    vlen: Vlen,
) -> (Image, Certificate) {
    let byte = match vlen {
        Vlen::V128 => 1,
        Vlen::V256 => 2,
        Vlen::V512 => 3,
    };
    let mut bytes = bytes_of(rt, alloc, kernel.certificate);
    put(rt, &mut bytes, 2, &[byte]);
    let certificate = given!(rt; cert_note::read(alloc, &bytes));
    (image_of(rt, alloc, kernel.code), certificate)
}

/// The kernel, accepted with its certificate for a length of vector registers.
pub(crate) fn accepted(
    rt: impl Abort + Copy,
    alloc: Global,
    kernel: Kernel,
    vlen: Vlen,
) -> Accepted {
    let (image, certificate) = parts_of(rt, alloc, kernel, vlen);
    given!(rt; check(alloc, image, certificate, vlen))
}
