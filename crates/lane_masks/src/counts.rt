//! Counts and first bits of masks. A caller that has a mask of active elements takes the bits that are set and active
//! (`LogicOp::And`) first.
ghost use Rattle.std.specs.Prelude.{◌≡◌, ◌+◌, ◌≤◌, ◌<◌, ◌^◌, length, map};
ghost use Rattle.lane_masks.specs.Masks.{first_set, index_of, iota_of, set_at, set_count};
ghost use Rattle.lane_masks.specs.Masks.{set_first_of};

use crate::lane::FoldLane;
use rv_decode::FirstOp;

/// How many bits are set ("Vector count population in mask vcpop.m").
pub fn count(mask: &[bool]) -> usize
    ensures { result ≡ set_count mask.now }
{
    mask.iter().filter(|bit| **bit).count()
}

/// The first bit that is set ("vfirst find-first-set mask bit").
pub fn first(mask: &[bool]) -> Option<usize>
    ensures { result ≡ first_set mask.now }
{
    mask.iter().position(|bit| *bit)
}

#[tactic(auto, unfolding(crate::specs::Masks::set_at))]
fn is_set(op: FirstOp, first: Option<usize>, i: usize) -> bool
    ensures { result ≡ set_at op first i }
{
    match (op, first) {
        (FirstOp::Before, Some(first)) => i < first,
        (FirstOp::Including, Some(first)) => i <= first,
        (FirstOp::Only, Some(first)) => i == first,
        (FirstOp::Before | FirstOp::Including, None) => true,
        (FirstOp::Only, None) => false,
    }
}

/// Writes over each bit whether it is set before, up to and including, or only at the first bit that is set ("vmsbf.m
/// set-before-first mask bit" and the two sections after it).
#[tactic(auto, unfolding(crate::specs::Masks::set_first_of))]
pub fn set_first(op: FirstOp, mask: &mut [bool])
    ensures { mask.new ≡ set_first_of op mask.old }
{
    let first = first(mask);
    for i in 0..mask.len() {
        mask[i] = is_set(op, first, i);
    }
}

/// Writes the number of set bits below each bit, modulo 2^SEW ("Vector Iota Instruction").
pub fn iota<T: FoldLane>(mask: &[bool], out: &mut [T])
    requires same { length mask.now ≡ length out.old }
    requires few { length mask.now < 2 ^ 32 }
    ensures { map T.number out.new ≡ iota_of T.width mask.now }
{
    let mut below = 0u32;
    for i in 0..out.len() {
        out[i] = T::low(below);
        below += u32::from(mask[i]);
    }
}

/// Writes the index of each element, modulo 2^SEW ("Vector Element Index Instruction").
pub fn index<T: FoldLane>(out: &mut [T])
    requires { length out.old < 2 ^ 32 }
    ensures { map T.number out.new ≡ index_of T.width (length out.old) }
{
    for i in 0..out.len() {
        out[i] = T::low(i as u32);
    }
}
