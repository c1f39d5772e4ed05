//! The integer kernels.
ghost use Rattle.std.specs.Prelude.{◌≤◌};

use crate::tests::assertions::assert_same;
use crate::tests::lanes::lengths::{LENGTHS, MOST, bytes, halves, numbers};
use lane_int::{Lane, compare, compute, multiply_add};
use rv_decode::{CompareOp, IntOp, MultiplyAddOp};
use std::process::Abort;

pub(crate) const OPERATIONS: [IntOp; 21] = [
    IntOp::Add,
    IntOp::Sub,
    IntOp::Rsub,
    IntOp::Minu,
    IntOp::Min,
    IntOp::Maxu,
    IntOp::Max,
    IntOp::And,
    IntOp::Or,
    IntOp::Xor,
    IntOp::Sll,
    IntOp::Srl,
    IntOp::Sra,
    IntOp::Mul,
    IntOp::Mulhu,
    IntOp::Mulhsu,
    IntOp::Mulh,
    IntOp::Divu,
    IntOp::Div,
    IntOp::Remu,
    IntOp::Rem,
];

const COMPARES: [CompareOp; 8] = [
    CompareOp::Eq,
    CompareOp::Ne,
    CompareOp::Ltu,
    CompareOp::Lt,
    CompareOp::Leu,
    CompareOp::Le,
    CompareOp::Gtu,
    CompareOp::Gt,
];

pub(crate) const MULTIPLY_ADDS: [MultiplyAddOp; 4] = [
    MultiplyAddOp::Macc,
    MultiplyAddOp::Nmsac,
    MultiplyAddOp::Madd,
    MultiplyAddOp::Nmsub,
];

#[test]
fn operations_at_each_length(rt: HostRuntime) {
    try_kernels(&rt, &bytes(1), &bytes(2), &bytes(3));
    try_kernels(&rt, &halves(1), &halves(2), &halves(3));
    try_kernels(&rt, &numbers(1), &numbers(2), &numbers(3));
}

/// Each operation at each length, on elements of one width.
fn try_kernels<T: Lane + PartialEq>(
    rt: impl Abort + Copy,
    a: &[T; MOST],
    b: &[T; MOST],
    d: &[T; MOST],
) {
    for k in 0..LENGTHS.len() {
        let n = LENGTHS[k].min(MOST);
        for j in 0..OPERATIONS.len() {
            try_operation(rt, OPERATIONS[j], a, b, n);
        }
        for j in 0..COMPARES.len() {
            try_compare(rt, COMPARES[j], a, b, n);
        }
        for j in 0..MULTIPLY_ADDS.len() {
            try_multiply_add(rt, MULTIPLY_ADDS[j], a, b, d, n);
        }
    }
}

fn try_operation<T: Lane + PartialEq>(
    rt: impl Abort + Copy,
    op: IntOp,
    a: &[T; MOST],
    b: &[T; MOST],
    n: usize,
)
    requires { n ≤ 512 }
{
    let mut values = *a;
    compute(op, &mut values[..n], &b[..n]);
    let mut expected = *a;
    for i in 0..n {
        expected[i] = T::int_result(op, a[i], b[i]);
    }
    assert_same!(rt; &values[..], &expected[..]);
}

fn try_compare<T: Lane>(
    rt: impl Abort + Copy,
    op: CompareOp,
    a: &[T; MOST],
    b: &[T; MOST],
    n: usize,
)
    requires { n ≤ 512 }
{
    let mut bits = [false; MOST];
    compare(op, &a[..n], &b[..n], &mut bits[..n]);
    let mut expected = [false; MOST];
    for i in 0..n {
        expected[i] = T::int_test(op, a[i], b[i]);
    }
    assert_same!(rt; bits.as_slice(), &expected[..]);
}

fn try_multiply_add<T: Lane + PartialEq>(
    rt: impl Abort + Copy,
    op: MultiplyAddOp,
    a: &[T; MOST],
    b: &[T; MOST],
    d: &[T; MOST],
    n: usize,
)
    requires { n ≤ 512 }
{
    let mut values = *d;
    multiply_add(op, &a[..n], &b[..n], &mut values[..n]);
    let mut expected = *d;
    for i in 0..n {
        expected[i] = T::multiply_add(op, a[i], b[i], d[i]);
    }
    assert_same!(rt; &values[..], &expected[..]);
}
