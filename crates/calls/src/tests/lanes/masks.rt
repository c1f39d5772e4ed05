//! Mask logic.
ghost use Rattle.std.specs.Prelude.{◌≤◌};

use crate::tests::assertions::assert_same;
use crate::tests::lanes::lengths::{LENGTHS, MOST, bits};
use lane_masks::combine;
use rv_decode::LogicOp;
use std::process::Abort;

const OPERATIONS: [LogicOp; 8] = [
    LogicOp::And,
    LogicOp::Nand,
    LogicOp::Andn,
    LogicOp::Xor,
    LogicOp::Or,
    LogicOp::Nor,
    LogicOp::Orn,
    LogicOp::Xnor,
];

#[test]
fn bits_at_each_length(rt: HostRuntime) {
    let (a, b) = (bits(1), bits(2));
    for k in 0..LENGTHS.len() {
        for j in 0..OPERATIONS.len() {
            try_combine(&rt, OPERATIONS[j], &a, &b, LENGTHS[k].min(MOST));
        }
    }
}

fn try_combine(rt: impl Abort + Copy, op: LogicOp, a: &[bool; MOST], b: &[bool; MOST], n: usize)
    requires { n ≤ 512 }
{
    let mut values = *a;
    combine(op, &mut values[..n], &b[..n]);
    let mut expected = *a;
    for i in 0..n {
        expected[i] = combine_one(op, a[i], b[i]);
    }
    assert_same!(rt; values.as_slice(), expected.as_slice());
}

/// The call on one bit.
fn combine_one(op: LogicOp, a: bool, b: bool) -> bool {
    let mut one = [a];
    combine(op, one.as_mut_slice(), [b].as_slice());
    one[0]
}
