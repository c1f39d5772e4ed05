//! The chunk call on lanes of 32 bits.
ghost use Rattle.std.specs.Prelude.{◌≡◌, ◌<◌, ℕ, List, map, slice_index};
ghost use lib.Lanes.{Each2};
ghost use Rattle.std.specs.Int.{w32};
ghost use Rattle.std.specs.Simd.Lanes.{sel_l, zip2};
ghost use Rattle.lane_int.specs.Chunks.{lane_of, all_ones, turned};
ghost use Rattle.lane_int.specs.Integer.{element, compares, multiply_added, shift_amount};
ghost use Rattle.lane_int.specs.Lists.{zip3};

use crate::chunks::bodies::{chunk_cases, compare_cases, multiply_add_cases};
use crate::operations::Op;
use rv_decode::{CompareOp, IntOp, MultiplyAddOp};
use std::simd::prelude::*;

/// What `op` makes of each lane of `values`, which are vs2's, of `b`'s lane and of vd's old one: 4 elements of 32 bits
/// ("Vector Integer Arithmetic Instructions"). A compare gives all ones where it holds, else 0.
#[inline(always)]
#[tactic(auto, using(crate::proofs::ChunkLemmas::lanes_of_each))]
pub fn chunk_u32(op: Op, values: u32x4, b: u32x4, old: u32x4) -> u32x4
    ensures { result ≡ zip3 (lane_of op w32) values b old }
{
    chunk_cases!(op, values, b, old)
}

/// Law: lane `i` of the result is what `op` makes of the lanes `i` alone, as `specs/Integer.antt` has it.
#[tactic(auto, using(crate::proofs::VectorLemmas::zip3_lane))]
pub fn lane_u32(op: Op, values: u32x4, b: u32x4, old: u32x4, i: usize) -> u32
    requires { i < 4 }
    ensures { result ≡ lane_of op w32 (slice_index values i) (slice_index b i) (slice_index old i) }
{
    let lanes = chunk_u32(op, values, b, old);
    lanes[i]
}

/// The lanes with their top bits turned over, which puts signed numbers into the order of unsigned ones.
#[inline(always)]
fn turned(lanes: u32x4) -> u32x4
    ensures { result ≡ map (turned w32) lanes }
{
    lanes + u32x4::splat(1 << 31)
}

/// By how many bits `b` shifts.
#[inline(always)]
fn amounts(b: u32x4) -> u32x4
    ensures meaning { result ≡ map (shift_amount w32) b }
    ensures fits { (lanes : List ℕ) → Each2 (λ a s. s < 32) lanes result }
{
    b % u32x4::splat(32)
}

/// vsra: a turned lane is 2^31 more than its number, so that its shift is more by the shifted 2^31.
#[inline(always)]
fn shift_right_signed(values: u32x4, b: u32x4) -> u32x4
    ensures { result ≡ zip2 (element IntOp.Sra w32) values b }
{
    let tops = u32x4::splat(1 << 31);
    let amounts = amounts(b);
    (turned(values) >> amounts) - (tops >> amounts)
}

/// The lanes of `yes` where `op` holds of vs2's lane and of `b`'s, and those of `no` elsewhere.
#[inline(always)]
#[tactic(auto, using(crate::proofs::ChunkLemmas::chosen_lanes))]
fn select(op: CompareOp, values: u32x4, b: u32x4, yes: u32x4, no: u32x4) -> u32x4
    ensures { result ≡ sel_l (zip2 (compares op w32) values b) yes no }
{
    compare_cases!(op, values, b, yes, no)
}

/// All ones in the lanes where `op` holds of vs2's lane and of `b`'s, and 0 in the others.
#[inline(always)]
#[tactic(auto, using(crate::proofs::ChunkLemmas::ones_where))]
fn compare(op: CompareOp, values: u32x4, b: u32x4) -> u32x4
    ensures { result ≡ zip2 (λ x y. all_ones w32 (compares op w32 x y)) values b }
{
    select(op, values, b, u32x4::splat(u32::MAX), u32x4::splat(0))
}

/// vmacc, vnmsac, vmadd and vnmsub
#[inline(always)]
#[tactic(auto, using(crate::proofs::VectorLemmas::multiply_adds))]
fn multiply_add(op: MultiplyAddOp, values: u32x4, b: u32x4, old: u32x4) -> u32x4
    ensures { result ≡ zip3 (multiply_added op w32) values b old }
{
    multiply_add_cases!(op, values, b, old)
}
