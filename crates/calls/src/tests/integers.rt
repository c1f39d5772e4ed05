//! How a kernel is called. What each operation gives is tried against QEMU by the crate `conformance`.

use crate::tests::assertions::assert_same;
use lane_int::{compare, compute, cut, extend};
use rv_decode::{CompareOp, IntOp};

#[test]
fn elements_are_computed_compared_and_resized(rt: HostRuntime) {
    let mut values: [u8; 4] = [0x80, 0x7f, 0xff, 0x07];
    compute(IntOp::Add, &mut values, &[0x80, 0x01, 0x01, 0x03]); // vadd.vv at SEW 8
    assert_same!(rt; values, [0x00, 0x80, 0x00, 0x0a]);
    let mut bits = [false; 4];
    compare(CompareOp::Lt, &values, &[0; 4], &mut bits); // vmslt.vx with x0
    assert_same!(rt; bits, [false, true, false, false]);
    let values = [0x7fu8, 0x80, 0xff];
    let mut wide = [0u16; 3];
    extend(true, values.as_slice(), wide.as_mut_slice());
    assert_same!(rt; wide, [0x7f, 0xff80, 0xffff]);
    extend(false, values.as_slice(), wide.as_mut_slice());
    assert_same!(rt; wide, [0x7f, 0x80, 0xff]);
    let mut back = [0u8; 3];
    cut([0x1234u16, 0xff, 0x8000].as_slice(), back.as_mut_slice());
    assert_same!(rt; back, [0x34, 0xff, 0]);
}
