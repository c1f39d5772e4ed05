//! Lanes of 16 and 32 bits as the sixteen bytes that hold them, the lowest byte of each first.
ghost use Rattle.std.specs.Prelude.{◌≡◌, ℕ, ◌*◌, ◌<◌, length, slice_index};
ghost use Rattle.byteorder.specs.Endian.{little_from};

use std::simd::prelude::*;

/// The halves in sixteen bytes.
#[inline(always)]
pub fn halves_in(bytes: u8x16) -> u16x8
    ensures lanes { (j : ℕ) → j < 8 → slice_index result j ≡ little_from (2 * j) 2 bytes }
    ensures count { length result ≡ 8 }
{
    u16x8::from_le_bytes(bytes)
}

/// The bytes of halves.
#[inline(always)]
pub fn bytes_of_halves(lanes: u16x8) -> u8x16
    ensures { (j : ℕ) → j < 8 → little_from (2 * j) 2 result ≡ slice_index lanes j }
{
    lanes.to_le_bytes()
}

/// The words in sixteen bytes.
#[inline(always)]
pub fn words_in(bytes: u8x16) -> u32x4
    ensures lanes { (j : ℕ) → j < 4 → slice_index result j ≡ little_from (4 * j) 4 bytes }
    ensures count { length result ≡ 4 }
{
    u32x4::from_le_bytes(bytes)
}

/// The bytes of words.
#[inline(always)]
pub fn bytes_of_words(lanes: u32x4) -> u8x16
    ensures { (j : ℕ) → j < 4 → little_from (4 * j) 4 result ≡ slice_index lanes j }
{
    lanes.to_le_bytes()
}
