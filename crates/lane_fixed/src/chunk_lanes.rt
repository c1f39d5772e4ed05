//! What the chunk calls need of a vector: each method is one operation, or two, of `std::simd`.
ghost use Rattle.std.specs.Prelude.{◌≡◌, ℕ, slice_index};

use std::simd::prelude::*;

/// A vector of unsigned lanes: `u8x16`, `u16x8` or `u32x4`.
pub trait Chunk: Copy {
    ghost use Rattle.std.specs.Prelude.{ℕ, ◌≡◌, ◌+◌, ◌-◌, ◌/◌, ◌%◌, ◌^◌, ◌<◌, ◌==◌, nat_lt, min};
    ghost use Rattle.std.specs.Prelude.{if◌then◌else◌};
    ghost use Rattle.std.specs.Int.{Width};
    ghost use mir.Val.{bits, hbits};
    ghost use Rattle.std.specs.Int.RustNames.{bit_and, bit_xor};

    // the width of a lane, how many there are, and the number that one holds
    ghost width: { Width };

    ghost count: { ℕ };

    ghost lane: { Self → ℕ → ℕ };

    /// Lanes of 0.
    fn zero() -> Self
        ensures { (i : ℕ) → i < count → lane result i ≡ 0 };

    /// Lanes of 1.
    fn one() -> Self
        ensures { (i : ℕ) → i < count → lane result i ≡ 1 };

    /// Lanes with their top bit alone.
    fn top() -> Self
        ensures { (i : ℕ) → i < count → lane result i ≡ 2 ^ hbits width };

    /// Lanes of all ones.
    fn ones() -> Self
        ensures { (i : ℕ) → i < count → lane result i ≡ 2 ^ bits width - 1 };

    /// The sum, modulo 2^SEW.
    fn sum(self, b: Self) -> Self
        ensures { (i : ℕ) → i < count
            → lane result i ≡ (lane self i + lane b i) % 2 ^ bits width };

    /// The difference, modulo 2^SEW.
    fn difference(self, b: Self) -> Self
        ensures { (i : ℕ) → i < count
            → lane result i ≡ (lane self i + (2 ^ bits width - lane b i)) % 2 ^ bits width };

    /// The sum, or all ones where it is greater.
    fn saturating_sum(self, b: Self) -> Self
        ensures { (i : ℕ) → i < count
            → lane result i ≡ min (lane self i + lane b i) (2 ^ bits width - 1) };

    /// The difference, or 0 where it is less.
    fn saturating_difference(self, b: Self) -> Self
        ensures { (i : ℕ) → i < count → lane result i ≡ lane self i - lane b i };

    /// The bits of both.
    fn both(self, b: Self) -> Self
        ensures { (i : ℕ) → i < count → lane result i ≡ bit_and (lane self i) (lane b i) };

    /// The bits of one alone.
    fn differing(self, b: Self) -> Self
        ensures { (i : ℕ) → i < count → lane result i ≡ bit_xor (lane self i) (lane b i) };

    /// The lane, shifted right by the low log2(SEW) bits of `b`.
    fn shifted(self, b: Self) -> Self
        ensures { (i : ℕ) → i < count
            → lane result i ≡ lane self i / 2 ^ (lane b i % bits width) };

    /// The power of 2 by which `shifted` divides.
    fn power(self) -> Self
        ensures { (i : ℕ) → i < count → lane result i ≡ 2 ^ (lane self i % bits width) };

    /// `yes` where this lane is below that of `b`, else `no`.
    fn if_below(self, b: Self, yes: Self, no: Self) -> Self
        ensures { (i : ℕ) → i < count
            → lane result i ≡ (if nat_lt (lane self i) (lane b i) then lane yes i else lane no i) };

    /// `yes` where this lane is that of `b`, else `no`.
    fn if_same(self, b: Self, yes: Self, no: Self) -> Self
        ensures { (i : ℕ) → i < count
            → lane result i ≡ (if lane self i == lane b i then lane yes i else lane no i) };
}

impl Chunk for u8x16 {
    ghost use Rattle.std.specs.Int.{w8};

    ghost width = { w8 };

    ghost count = { 16 };

    ghost lane = { λ a i. slice_index a i };

    #[inline(always)]
    fn zero() -> u8x16 {
        u8x16::splat(0)
    }

    #[inline(always)]
    fn one() -> u8x16 {
        u8x16::splat(1)
    }

    #[inline(always)]
    fn top() -> u8x16 {
        u8x16::splat(0x80)
    }

    #[inline(always)]
    fn ones() -> u8x16 {
        u8x16::splat(0xff)
    }

    #[inline(always)]
    fn sum(self, b: u8x16) -> u8x16 {
        self + b
    }

    #[inline(always)]
    fn difference(self, b: u8x16) -> u8x16 {
        self - b
    }

    #[inline(always)]
    fn saturating_sum(self, b: u8x16) -> u8x16 {
        self.saturating_add(b)
    }

    #[inline(always)]
    fn saturating_difference(self, b: u8x16) -> u8x16 {
        self.saturating_sub(b)
    }

    #[inline(always)]
    fn both(self, b: u8x16) -> u8x16 {
        self & b
    }

    #[inline(always)]
    fn differing(self, b: u8x16) -> u8x16 {
        self ^ b
    }

    #[inline(always)]
    fn shifted(self, b: u8x16) -> u8x16 {
        self >> (b % u8x16::splat(8))
    }

    #[inline(always)]
    fn power(self) -> u8x16 {
        u8x16::splat(1) << (self % u8x16::splat(8))
    }

    #[inline(always)]
    fn if_below(self, b: u8x16, yes: u8x16, no: u8x16) -> u8x16 {
        self.simd_lt(b).select(yes, no)
    }

    #[inline(always)]
    fn if_same(self, b: u8x16, yes: u8x16, no: u8x16) -> u8x16 {
        self.simd_eq(b).select(yes, no)
    }
}

impl Chunk for u16x8 {
    ghost use Rattle.std.specs.Int.{w16};

    ghost width = { w16 };

    ghost count = { 8 };

    ghost lane = { λ a i. slice_index a i };

    #[inline(always)]
    fn zero() -> u16x8 {
        u16x8::splat(0)
    }

    #[inline(always)]
    fn one() -> u16x8 {
        u16x8::splat(1)
    }

    #[inline(always)]
    fn top() -> u16x8 {
        u16x8::splat(0x8000)
    }

    #[inline(always)]
    fn ones() -> u16x8 {
        u16x8::splat(0xffff)
    }

    #[inline(always)]
    fn sum(self, b: u16x8) -> u16x8 {
        self + b
    }

    #[inline(always)]
    fn difference(self, b: u16x8) -> u16x8 {
        self - b
    }

    #[inline(always)]
    fn saturating_sum(self, b: u16x8) -> u16x8 {
        self.saturating_add(b)
    }

    #[inline(always)]
    fn saturating_difference(self, b: u16x8) -> u16x8 {
        self.saturating_sub(b)
    }

    #[inline(always)]
    fn both(self, b: u16x8) -> u16x8 {
        self & b
    }

    #[inline(always)]
    fn differing(self, b: u16x8) -> u16x8 {
        self ^ b
    }

    #[inline(always)]
    fn shifted(self, b: u16x8) -> u16x8 {
        self >> (b % u16x8::splat(16))
    }

    #[inline(always)]
    fn power(self) -> u16x8 {
        u16x8::splat(1) << (self % u16x8::splat(16))
    }

    #[inline(always)]
    fn if_below(self, b: u16x8, yes: u16x8, no: u16x8) -> u16x8 {
        self.simd_lt(b).select(yes, no)
    }

    #[inline(always)]
    fn if_same(self, b: u16x8, yes: u16x8, no: u16x8) -> u16x8 {
        self.simd_eq(b).select(yes, no)
    }
}

impl Chunk for u32x4 {
    ghost use Rattle.std.specs.Int.{w32};

    ghost width = { w32 };

    ghost count = { 4 };

    ghost lane = { λ a i. slice_index a i };

    #[inline(always)]
    fn zero() -> u32x4 {
        u32x4::splat(0)
    }

    #[inline(always)]
    fn one() -> u32x4 {
        u32x4::splat(1)
    }

    #[inline(always)]
    fn top() -> u32x4 {
        u32x4::splat(0x8000_0000)
    }

    #[inline(always)]
    fn ones() -> u32x4 {
        u32x4::splat(0xffff_ffff)
    }

    #[inline(always)]
    fn sum(self, b: u32x4) -> u32x4 {
        self + b
    }

    #[inline(always)]
    fn difference(self, b: u32x4) -> u32x4 {
        self - b
    }

    #[inline(always)]
    fn saturating_sum(self, b: u32x4) -> u32x4 {
        self.saturating_add(b)
    }

    #[inline(always)]
    fn saturating_difference(self, b: u32x4) -> u32x4 {
        self.saturating_sub(b)
    }

    #[inline(always)]
    fn both(self, b: u32x4) -> u32x4 {
        self & b
    }

    #[inline(always)]
    fn differing(self, b: u32x4) -> u32x4 {
        self ^ b
    }

    #[inline(always)]
    fn shifted(self, b: u32x4) -> u32x4 {
        self >> (b % u32x4::splat(32))
    }

    #[inline(always)]
    fn power(self) -> u32x4 {
        u32x4::splat(1) << (self % u32x4::splat(32))
    }

    #[inline(always)]
    fn if_below(self, b: u32x4, yes: u32x4, no: u32x4) -> u32x4 {
        self.simd_lt(b).select(yes, no)
    }

    #[inline(always)]
    fn if_same(self, b: u32x4, yes: u32x4, no: u32x4) -> u32x4 {
        self.simd_eq(b).select(yes, no)
    }
}
