//! Sixteen bytes at a time.

ghost use Rattle.std.specs.Prelude.{◌≡◌, ℕ, ◌<◌, length, slice_index};
ghost use Rattle.vreg_groups.specs.Chunks.{chosen};
ghost use Rattle.vreg_groups.specs.NewElements.{filled};

use crate::policies::Agnostic;
use std::simd::prelude::*;

/// In each lane `value`'s byte where `active`'s is not 0, else `other`'s: what a masked write makes of sixteen bytes, where
/// `other` has those that inactive elements become ("Vector Masking").
#[inline]
pub fn choose(active: u8x16, value: u8x16, other: u8x16) -> u8x16
    ensures { result ≡ chosen active value other }
{
    active.simd_ne(u8x16::splat(0)).select(value, other)
}

/// What becomes of sixteen bytes: those of the body with a flag get their result, its others what `inactive` says, and
/// what is not of the body stays.
#[inline(always)]
pub fn written_lanes(
    flags: u8x16,
    body: u8x16,
    results: u8x16,
    old: u8x16,
    inactive: Agnostic,
) -> u8x16
    ensures active { (k : ℕ) → k < 16 → 0 < slice_index body k → 0 < slice_index flags k
        → slice_index result k ≡ slice_index results k }
    ensures inactive { (k : ℕ) → k < 16 → 0 < slice_index body k → slice_index flags k ≡ 0
        → slice_index result k ≡ filled inactive 0xff (slice_index old k) }
    ensures rest { (k : ℕ) → k < 16 → slice_index body k ≡ 0
        → slice_index result k ≡ slice_index old k }
{
    let written = over(flags, results, filler(inactive, old));
    over(body, written, old)
}

/// `choose`, which knows how many lanes each has.
#[inline(always)]
fn over(flags: u8x16, results: u8x16, others: u8x16) -> u8x16
    ensures meaning { result ≡ chosen flags results others }
    ensures flags { length flags ≡ 16 }
    ensures results { length results ≡ 16 }
    ensures others { length others ≡ 16 }
{
    choose(flags, results, others)
}

/// What bytes without a flag become.
#[inline(always)]
fn filler(inactive: Agnostic, old: u8x16) -> u8x16
    ensures { (k : ℕ) → k < 16 → slice_index result k ≡ filled inactive 0xff (slice_index old k) }
{
    match inactive {
        Agnostic::Keep => old,
        Agnostic::Ones => u8x16::splat(0xff),
    }
}
