//! How the kernels are called. Expected values are worked out by hand from the standard's examples and rules.

use crate::tests::assertions::assert_same;
use lane_masks::{
    combine, compress, count, first, fold, fold_extended, gather, index, iota, set_first,
    slide_down, slide_one_down, slide_one_up, slide_up,
};
use rv_decode::{FirstOp, FoldOp, LogicOp};
use std::process::Abort;

const MASK: [bool; 6] = [false, true, false, true, false, false];

#[test]
fn counts_finds_and_folds(rt: HostRuntime) {
    assert_same!(rt; count(MASK.as_slice()), 2);
    assert_same!(rt; first(MASK.as_slice()), Some(1));
    assert_same!(rt; first([false; 3].as_slice()), None);
    let mut out = [0u8; 6];
    iota(MASK.as_slice(), out.as_mut_slice());
    assert_same!(rt; out, [0, 0, 1, 1, 2, 2]);
    index(out.as_mut_slice());
    assert_same!(rt; out, [0, 1, 2, 3, 4, 5]);
    expect_folds(rt, &[1, 2, 0x80, 0xff, 5, 6], &MASK);
}

fn expect_folds(rt: impl Abort + Copy, values: &[u8; 6], mask: &[bool; 6]) {
    let (values, mask) = (values.as_slice(), mask.as_slice());
    assert_same!(rt; fold(FoldOp::Sum, 10u8, values, mask), 11);
    assert_same!(rt; fold(FoldOp::Max, 0x80u8, values, mask), 2);
    assert_same!(rt; fold_extended(true, 10u16, values, mask), 11);
    assert_same!(rt; fold_extended(false, 10u16, values, mask), 267);
}

#[test]
fn sets_bits_around_the_first(rt: HostRuntime) {
    for (op, expected) in [
        (FirstOp::Before, [true, false, false, false, false, false]),
        (FirstOp::Including, [true, true, false, false, false, false]),
        (FirstOp::Only, [false, true, false, false, false, false]),
    ] {
        let mut mask = MASK;
        set_first(op, mask.as_mut_slice());
        assert_same!(rt; mask, expected);
    }
    let mut mask = [false, true, false, false, false, false];
    combine(LogicOp::Orn, mask.as_mut_slice(), MASK.as_slice());
    assert_same!(rt; mask, [true, true, true, false, true, true]);
}

#[test]
fn moves_and_packs_elements(rt: HostRuntime) {
    let source = [1u8, 2, 3, 4];
    let mut values = [9u8; 4];
    slide_up(1, source.as_slice(), values.as_mut_slice());
    assert_same!(rt; values, [9, 1, 2, 3]);
    slide_down(3, source.as_slice(), 0, values.as_mut_slice());
    assert_same!(rt; values, [4, 0, 0, 0]);
    let mut values = [9u8; 4];
    gather(
        source.as_slice(),
        [3u32, 4, 0xffff_ffff, 0].as_slice(),
        0,
        values.as_mut_slice(),
    );
    assert_same!(rt; values, [4, 0, 0, 1]);
    expect_one_moved(rt, source);
}

fn expect_one_moved(rt: impl Abort + Copy, source: [u8; 4]) {
    let mut values = source;
    slide_one_up(7, values.as_mut_slice());
    assert_same!(rt; values, [7, 1, 2, 3]);
    slide_one_down(8, values.as_mut_slice());
    assert_same!(rt; values, [1, 2, 3, 8]);
    let packed = compress([false, true, false, true].as_slice(), values.as_mut_slice());
    assert_same!(rt; packed, 2);
    assert_same!(rt; &values[..2], [2u8, 8].as_slice());
}
