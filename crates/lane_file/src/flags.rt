//! Flags of bytes: which of sixteen are written.
ghost use Rattle.std.specs.Prelude.{◌≡◌, ℕ, ◌+◌, ◌*◌, ◌<◌, ◌≤◌, ◌⊎◌, Bool, true, false, slice_index};
ghost use Rattle.lane_file.specs.InPlace.{AreFlags, is_active};

use lane_int::Lane;
use rv_decode::Reg;
use std::simd::prelude::*;
use vreg_groups::VregFile;

/// Flags of the first bytes.
#[inline(always)]
pub(crate) fn first_flags(n: usize) -> u8x16
    requires { n ≤ 16 }
    ensures set { (k : ℕ) → k < n → 0 < slice_index result k }
    ensures clear { (k : ℕ) → n ≤ k → slice_index result k ≡ 0 }
{
    let mut flags = [0u8; 16];
    flags[..n].fill(0xff);
    u8x16::from_array(flags)
}

/// Flags of the bytes of active elements, in chunk `m` of a group.
#[inline(always)]
pub(crate) fn active_flags<E: Lane, const VLENB: usize>(
    registers: &VregFile<VLENB>,
    masked: bool,
    m: usize,
) -> u8x16
    requires vlenb { VLENB ≤ 64 }
    requires room { 16 * m + 16 ≤ 8 * VLENB }
    requires size { (E.size ≡ 1) ⊎ (E.size ≡ 2) ⊎ (E.size ≡ 4) }
    ensures set { (j k : ℕ) → j < E.count → k < E.size
        → is_active VLENB masked (E.count * m + j) registers.now ≡ true
        → 0 < slice_index result (E.size * j + k) }
    ensures clear { (j k : ℕ) → j < E.count → k < E.size
        → is_active VLENB masked (E.count * m + j) registers.now ≡ false
        → slice_index result (E.size * j + k) ≡ 0 }
{
    if masked {
        mask_flags(registers, m, E::size())
    } else {
        u8x16::splat(0xff)
    }
}

/// The same of the bits of v0: an element has `size` bytes.
#[inline(always)]
fn mask_flags<const VLENB: usize>(registers: &VregFile<VLENB>, m: usize, size: usize) -> u8x16
    requires room { 16 * m + 16 ≤ 8 * VLENB }
    requires size { (size ≡ 1) ⊎ (size ≡ 2) ⊎ (size ≡ 4) }
    ensures { AreFlags VLENB size m registers.now result }
{
    if size == 1 {
        byte_flags(registers, m)
    } else if size == 2 {
        half_flags(registers, m)
    } else {
        word_flags(registers, m)
    }
}

/// Where elements are bytes, two bytes of v0 have the bits of a chunk.
#[inline(always)]
fn byte_flags<const VLENB: usize>(registers: &VregFile<VLENB>, m: usize) -> u8x16
    requires { 16 * m + 16 ≤ 8 * VLENB }
    ensures { AreFlags VLENB 1 m registers.now result }
{
    let a = mask_byte(registers, 2 * m);
    let b = mask_byte(registers, 2 * m + 1);
    let bytes = [a, a, a, a, a, a, a, a, b, b, b, b, b, b, b, b];
    let bits = [1, 2, 4, 8, 16, 32, 64, 128, 1, 2, 4, 8, 16, 32, 64, 128];
    u8x16::from_array(bytes) & u8x16::from_array(bits)
}

/// Where elements have two bytes, one byte of v0 has them.
#[inline(always)]
fn half_flags<const VLENB: usize>(registers: &VregFile<VLENB>, m: usize) -> u8x16
    requires { 16 * m + 16 ≤ 8 * VLENB }
    ensures { AreFlags VLENB 2 m registers.now result }
{
    let bits = [1, 1, 2, 2, 4, 4, 8, 8, 16, 16, 32, 32, 64, 64, 128, 128];
    u8x16::splat(mask_byte(registers, m)) & u8x16::from_array(bits)
}

/// Where elements have four bytes, half a byte of v0 has them.
#[inline(always)]
fn word_flags<const VLENB: usize>(registers: &VregFile<VLENB>, m: usize) -> u8x16
    requires { 16 * m + 16 ≤ 8 * VLENB }
    ensures { AreFlags VLENB 4 m registers.now result }
{
    let bytes = u8x16::splat(mask_byte(registers, m / 2));
    if m % 2 == 0 {
        bytes & u8x16::from_array([1, 1, 1, 1, 2, 2, 2, 2, 4, 4, 4, 4, 8, 8, 8, 8])
    } else {
        bytes
            & u8x16::from_array([
                16, 16, 16, 16, 32, 32, 32, 32, 64, 64, 64, 64, 128, 128, 128, 128,
            ])
    }
}

/// A byte of v0.
#[inline(always)]
fn mask_byte<const VLENB: usize>(registers: &VregFile<VLENB>, i: usize) -> u8
    requires { i < VLENB }
    ensures { result ≡ slice_index registers.now (0 * VLENB + i) }
{
    registers.byte(Reg::new(0), i)
}
