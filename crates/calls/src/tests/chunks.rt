//! The chunk calls, on one chunk each. What is expected was computed apart, by numbers.

use crate::tests::assertions::assert_same;
use lane_fixed::{
    Op as FixedOp, RoundingMode, chunk_u8 as fixed_u8, chunk_u16 as fixed_u16,
    chunk_u32 as fixed_u32,
};
use lane_int::{Op, chunk_u8, chunk_u16, chunk_u32};
use rv_decode::{CompareOp, LogicOp, MultiplyAddOp};
use std::simd::prelude::*;
use vreg_groups::choose;

#[test]
fn chunks_are_computed(rt: HostRuntime) {
    let values = u8x16::from_array([
        0x80, 0x7f, 0xff, 0x0, 0x1, 0x7, 0xfe, 0x83, 0xa5, 0x4d, 0xca, 0x18, 0x25, 0x30, 0xbb, 0x1d,
    ]);
    let b = u8x16::from_array([
        0x1, 0x80, 0x1, 0xff, 0xb, 0x7e, 0x7, 0x2, 0x6d, 0x13, 0x2c, 0xde, 0xd6, 0x23, 0x7b, 0x2e,
    ]);
    let lanes = chunk_u8(Op::Sra, values, b, b).to_array();
    let expected = [
        0xc0, 0x7f, 0xff, 0x0, 0x0, 0x0, 0xff, 0xe0, 0xfd, 0x9, 0xfc, 0x0, 0x0, 0x6, 0xf7, 0x0,
    ];
    assert_same!(rt; lanes, expected);
    let values = u16x8::from_array([0x8000, 0x7fff, 0xffff, 0x0, 0x1, 0x7, 0xfffe, 0x8003]);
    let b = u16x8::from_array([0x1, 0x8000, 0x1, 0xffff, 0x13, 0x7ffe, 0xf, 0x2]);
    let lanes = chunk_u16(Op::Compare(CompareOp::Lt), values, b, b).to_array();
    let expected = [0xffff, 0x0, 0xffff, 0x0, 0xffff, 0xffff, 0xffff, 0xffff];
    assert_same!(rt; lanes, expected);
    let values = u32x4::from_array([0x8000_0000, 0x7fff_ffff, 0xffff_ffff, 0x7]);
    let b = u32x4::from_array([0x3, 0x8000_0000, 0x21, 0xffff_fffe]);
    let old = u32x4::from_array([0x5, 0x2a, 0x4f, 0x74]);
    let lanes = chunk_u32(Op::MultiplyAdd(MultiplyAddOp::Nmsac), values, b, old).to_array();
    assert_same!(rt; lanes, [0x8000_0005, 0x8000_002a, 0x70, 0x82]);
}

#[test]
fn chunks_of_bytes_and_halves_saturate(rt: HostRuntime) {
    let a = u8x16::from_array([
        0, 1, 0x7f, 0x80, 0xff, 0x7f, 0x80, 0x64, 0xc8, 0x32, 5, 0xfb, 3, 0xfd, 0x81, 0x40,
    ]);
    let b = u8x16::from_array([
        0, 0xff, 1, 0xff, 0xff, 0x7f, 0x80, 0x64, 0x64, 0xce, 2, 2, 1, 1, 3, 0x40,
    ]);
    let (sums, flags) = fixed_u8(FixedOp::Sadd, a, b, b);
    let expected = [
        0, 0, 0x7f, 0x80, 0xfe, 0x7f, 0x80, 0x7f, 0x2c, 0, 7, 0xfd, 4, 0xfe, 0x84, 0x7f,
    ];
    assert_same!(rt; sums.to_array(), expected);
    let saturated = [
        0, 0, 0xff, 0xff, 0, 0xff, 0xff, 0xff, 0, 0, 0, 0, 0, 0, 0, 0xff,
    ];
    assert_same!(rt; flags.to_array(), saturated);
    let a = u16x8::from_array([0x7fff, 0x8000, 0x1234, 0xffff, 1, 0x8001, 0xff, 0x4000]);
    let b = u16x8::from_array([0xffff, 1, 4, 0xffff, 2, 2, 0x10, 0xc000]);
    let (left, flags) = fixed_u16(FixedOp::Ssub, a, b, b);
    let expected = [0x7fff, 0x8000, 0x1230, 0, 0xffff, 0x8000, 0xef, 0x7fff];
    assert_same!(rt; left.to_array(), expected);
    let saturated = [0xffff, 0xffff, 0, 0, 0, 0xffff, 0, 0xffff];
    assert_same!(rt; flags.to_array(), saturated);
}

#[test]
fn chunks_of_words_saturate_and_are_rounded(rt: HostRuntime) {
    let a = u32x4::from_array([0x7fff_ffff, 0, 0x1234_5678, 0xffff_ffff]);
    let b = u32x4::from_array([1, 1, 0x1234_5679, 0x8000_0000]);
    let (left, flags) = fixed_u32(FixedOp::Ssubu, a, b, b);
    assert_same!(rt; left.to_array(), [0x7fff_fffe, 0, 0, 0x7fff_ffff]);
    assert_same!(rt; flags.to_array(), [0, 0xffff_ffff, 0xffff_ffff, 0]);
    let a = u32x4::from_array([0x7, 0x8000_0005, 0xffff_ffff, 0x6]);
    let b = u32x4::from_array([0x4, 0x1, 0x1, 0x3]);
    let (means, flags) = fixed_u32(FixedOp::Aaddu(RoundingMode::NearestEven), a, b, b);
    assert_same!(rt; means.to_array(), [0x6, 0x4000_0003, 0x8000_0000, 0x4]);
    assert_same!(rt; flags.to_array(), [0; 4]);
    let (scaled, _) = fixed_u32(FixedOp::Ssra(RoundingMode::NearestUp), a, b, b);
    assert_same!(rt; scaled.to_array(), [0x0, 0xc000_0003, 0x0, 0x1]);
}

#[test]
fn bytes_are_combined_and_chosen(rt: HostRuntime) {
    let a = u8x16::from_array([
        0, 0xff, 0x0f, 0xf0, 0x55, 0xaa, 0x33, 0xcc, 1, 0x80, 0x7e, 0x81, 0x12, 0x34, 0x56, 0x78,
    ]);
    let b = u8x16::from_array([
        0xff, 0xff, 0x3c, 0x3c, 0x0f, 0x0f, 0x55, 0x55, 1, 1, 0x18, 0x18, 0xfe, 0xdc, 0xba, 0x98,
    ]);
    let or_not = lane_masks::chunk_u8(LogicOp::Orn, a, b, b).to_array();
    let expected = [
        0, 0xff, 0xcf, 0xf3, 0xf5, 0xfa, 0xbb, 0xee, 0xff, 0xfe, 0xff, 0xe7, 0x13, 0x37, 0x57, 0x7f,
    ];
    assert_same!(rt; or_not, expected);
    let active = u8x16::from_array([1, 0, 0xff, 0, 2, 0, 0, 0, 0, 0, 0, 0, 0, 0, 0, 0x80]);
    let lanes = choose(active, u8x16::splat(5), u8x16::splat(9)).to_array();
    assert_same!(rt; lanes, [5, 9, 5, 9, 5, 9, 9, 9, 9, 9, 9, 9, 9, 9, 9, 5]);
}
