//! The chunk call on lanes of 8 bits.
ghost use Rattle.std.specs.Prelude.{◌≡◌, ◌<◌, ℕ, List, map, slice_index};
ghost use lib.Lanes.{Each2};
ghost use Rattle.std.specs.Int.{w8};
ghost use Rattle.std.specs.Simd.Lanes.{sel_l, zip2};
ghost use Rattle.lane_int.specs.Chunks.{lane_of, all_ones, turned};
ghost use Rattle.lane_int.specs.Integer.{element, compares, multiply_added, shift_amount};
ghost use Rattle.lane_int.specs.Lists.{zip3};

use crate::chunks::bodies::{chunk_cases, compare_cases, multiply_add_cases};
use crate::operations::Op;
use rv_decode::{CompareOp, IntOp, MultiplyAddOp};
use std::simd::prelude::*;

/// What `op` makes of each lane of `values`, which are vs2's, of `b`'s lane and of vd's old one: 16 elements of 8 bits
/// ("Vector Integer Arithmetic Instructions"). A compare gives all ones where it holds, else 0.
#[inline(always)]
#[tactic(auto, using(crate::proofs::ChunkLemmas::lanes_of_each))]
pub fn chunk_u8(op: Op, values: u8x16, b: u8x16, old: u8x16) -> u8x16
    ensures { result ≡ zip3 (lane_of op w8) values b old }
{
    chunk_cases!(op, values, b, old)
}

/// Law: lane `i` of the result is what `op` makes of the lanes `i` alone, as `specs/Integer.antt` has it.
#[tactic(auto, using(crate::proofs::VectorLemmas::zip3_lane))]
pub fn lane_u8(op: Op, values: u8x16, b: u8x16, old: u8x16, i: usize) -> u8
    requires { i < 16 }
    ensures { result ≡ lane_of op w8 (slice_index values i) (slice_index b i) (slice_index old i) }
{
    let lanes = chunk_u8(op, values, b, old);
    lanes[i]
}

/// The lanes with their top bits turned over, which puts signed numbers into the order of unsigned ones.
#[inline(always)]
fn turned(lanes: u8x16) -> u8x16
    ensures { result ≡ map (turned w8) lanes }
{
    lanes + u8x16::splat(1 << 7)
}

/// By how many bits `b` shifts.
#[inline(always)]
fn amounts(b: u8x16) -> u8x16
    ensures meaning { result ≡ map (shift_amount w8) b }
    ensures fits { (lanes : List ℕ) → Each2 (λ a s. s < 8) lanes result }
{
    b % u8x16::splat(8)
}

/// vsra: a turned lane is 2^7 more than its number, so that its shift is more by the shifted 2^7.
#[inline(always)]
fn shift_right_signed(values: u8x16, b: u8x16) -> u8x16
    ensures { result ≡ zip2 (element IntOp.Sra w8) values b }
{
    let tops = u8x16::splat(1 << 7);
    let amounts = amounts(b);
    (turned(values) >> amounts) - (tops >> amounts)
}

/// The lanes of `yes` where `op` holds of vs2's lane and of `b`'s, and those of `no` elsewhere.
#[inline(always)]
#[tactic(auto, using(crate::proofs::ChunkLemmas::chosen_lanes))]
fn select(op: CompareOp, values: u8x16, b: u8x16, yes: u8x16, no: u8x16) -> u8x16
    ensures { result ≡ sel_l (zip2 (compares op w8) values b) yes no }
{
    compare_cases!(op, values, b, yes, no)
}

/// All ones in the lanes where `op` holds of vs2's lane and of `b`'s, and 0 in the others.
#[inline(always)]
#[tactic(auto, using(crate::proofs::ChunkLemmas::ones_where))]
fn compare(op: CompareOp, values: u8x16, b: u8x16) -> u8x16
    ensures { result ≡ zip2 (λ x y. all_ones w8 (compares op w8 x y)) values b }
{
    select(op, values, b, u8x16::splat(u8::MAX), u8x16::splat(0))
}

/// vmacc, vnmsac, vmadd and vnmsub
#[inline(always)]
#[tactic(auto, using(crate::proofs::VectorLemmas::multiply_adds))]
fn multiply_add(op: MultiplyAddOp, values: u8x16, b: u8x16, old: u8x16) -> u8x16
    ensures { result ≡ zip3 (multiply_added op w8) values b old }
{
    multiply_add_cases!(op, values, b, old)
}
