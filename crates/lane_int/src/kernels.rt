//! The kernels: one operation over whole slices.
//!
//! Each matches its operation once, outside the loop: every arm has a loop of its own, in which the operation is known, so
//! that the compiler can work on many elements at a time.
ghost use Rattle.std.specs.Prelude.{◌≡◌, true, length};
ghost use Rattle.lane_int.specs.Chunks.{has_chunk};
ghost use lib.Lanes.{zip2};
ghost use Rattle.lane_int.specs.Lists.{zip3};

use crate::lane::Lane;
use rv_decode::{CarryOp, CompareOp, IntOp, MultiplyAddOp};

/// Writes over each element of `values`, which are vs2's, what `op` makes of it and of `b`'s element.
pub fn compute<T: Lane>(op: IntOp, values: &mut [T], b: &[T])
    requires { length b.now ≡ length values.old }
    ensures { values.new ≡ zip2 (T.result_of op) values.old b.now }
{
    match op {
        IntOp::Add => compute_chunks(IntOp::Add, values, b),
        IntOp::Sub => compute_chunks(IntOp::Sub, values, b),
        IntOp::Rsub => compute_chunks(IntOp::Rsub, values, b),
        IntOp::Minu => compute_chunks(IntOp::Minu, values, b),
        IntOp::Min => compute_chunks(IntOp::Min, values, b),
        IntOp::Maxu => compute_chunks(IntOp::Maxu, values, b),
        IntOp::Max => compute_chunks(IntOp::Max, values, b),
        IntOp::And => compute_chunks(IntOp::And, values, b),
        IntOp::Or => compute_chunks(IntOp::Or, values, b),
        IntOp::Xor => compute_chunks(IntOp::Xor, values, b),
        IntOp::Sll => compute_chunks(IntOp::Sll, values, b),
        IntOp::Srl => compute_chunks(IntOp::Srl, values, b),
        IntOp::Sra => compute_chunks(IntOp::Sra, values, b),
        IntOp::Mul => compute_chunks(IntOp::Mul, values, b),
        IntOp::Mulhu => compute_each(IntOp::Mulhu, values, b),
        IntOp::Mulhsu => compute_each(IntOp::Mulhsu, values, b),
        IntOp::Mulh => compute_each(IntOp::Mulh, values, b),
        IntOp::Divu => compute_each(IntOp::Divu, values, b),
        IntOp::Div => compute_each(IntOp::Div, values, b),
        IntOp::Remu => compute_each(IntOp::Remu, values, b),
        IntOp::Rem => compute_each(IntOp::Rem, values, b),
    }
}

/// The loop over chunks, and that over the elements after the last of them.
#[inline(always)]
fn compute_chunks<T: Lane>(op: IntOp, values: &mut [T], b: &[T])
    requires call { has_chunk op ≡ true }
    requires length { length b.now ≡ length values.old }
    ensures { values.new ≡ zip2 (T.result_of op) values.old b.now }
{
    let mut at = 0;
    while values.len() - at >= T::count() {
        T::chunk(op, values, b, at);
        at += T::count();
    }
    for i in at..values.len() {
        values[i] = T::int_result(op, values[i], b[i]);
    }
}

/// The loop over single elements.
#[inline(always)]
fn compute_each<T: Lane>(op: IntOp, values: &mut [T], b: &[T])
    requires { length b.now ≡ length values.old }
    ensures { values.new ≡ zip2 (T.result_of op) values.old b.now }
{
    for i in 0..values.len() {
        values[i] = T::int_result(op, values[i], b[i]);
    }
}

/// Writes into `bits` whether `op` holds of each element of `a`, which are vs2's, and of `b`'s.
pub fn compare<T: Lane>(op: CompareOp, a: &[T], b: &[T], bits: &mut [bool])
    requires a_len { length a.now ≡ length bits.old }
    requires b_len { length b.now ≡ length bits.old }
    ensures { bits.new ≡ zip2 (T.test_of op) a.now b.now }
{
    match op {
        CompareOp::Eq => compare_chunks(CompareOp::Eq, a, b, bits),
        CompareOp::Ne => compare_chunks(CompareOp::Ne, a, b, bits),
        CompareOp::Ltu => compare_chunks(CompareOp::Ltu, a, b, bits),
        CompareOp::Lt => compare_chunks(CompareOp::Lt, a, b, bits),
        CompareOp::Leu => compare_chunks(CompareOp::Leu, a, b, bits),
        CompareOp::Le => compare_chunks(CompareOp::Le, a, b, bits),
        CompareOp::Gtu => compare_chunks(CompareOp::Gtu, a, b, bits),
        CompareOp::Gt => compare_chunks(CompareOp::Gt, a, b, bits),
    }
}

/// The loop over chunks, and that over the elements after the last of them.
#[inline(always)]
fn compare_chunks<T: Lane>(op: CompareOp, a: &[T], b: &[T], bits: &mut [bool])
    requires a_len { length a.now ≡ length bits.old }
    requires b_len { length b.now ≡ length bits.old }
    ensures { bits.new ≡ zip2 (T.test_of op) a.now b.now }
{
    let mut at = 0;
    while bits.len() - at >= T::count() {
        let tests = T::test_chunk(op, a, b, at);
        for k in 0..T::count() {
            bits[at + k] = tests[k];
        }
        at += T::count();
    }
    for i in at..bits.len() {
        bits[i] = T::int_test(op, a[i], b[i]);
    }
}

/// Writes over each element of `values`, which are vs2's, its sum with `b`'s element and the carry, or its difference
/// less the borrow.
pub fn compute_carried<T: Lane>(op: CarryOp, values: &mut [T], b: &[T], carries: &[bool])
    requires b_len { length b.now ≡ length values.old }
    requires carries_len { length carries.now ≡ length values.old }
    ensures { values.new ≡ zip3 (T.carried_of op) values.old b.now carries.now }
{
    match op {
        CarryOp::Adc => carry_each(CarryOp::Adc, values, b, carries),
        CarryOp::Sbc => carry_each(CarryOp::Sbc, values, b, carries),
    }
}

/// The loop of `compute_carried`.
#[inline(always)]
fn carry_each<T: Lane>(op: CarryOp, values: &mut [T], b: &[T], carries: &[bool])
    requires b_len { length b.now ≡ length values.old }
    requires carries_len { length carries.now ≡ length values.old }
    ensures { values.new ≡ zip3 (T.carried_of op) values.old b.now carries.now }
{
    for i in 0..values.len() {
        values[i] = T::carry_result(op, values[i], b[i], carries[i]);
    }
}

/// Writes over each carry or borrow in `carries` the one that comes out of the sum or difference of `a`'s element, which
/// is vs2's, and of `b`'s.
pub fn compute_carries<T: Lane>(op: CarryOp, a: &[T], b: &[T], carries: &mut [bool])
    requires a_len { length a.now ≡ length carries.old }
    requires b_len { length b.now ≡ length carries.old }
    ensures { carries.new ≡ zip3 (T.carry_of op) a.now b.now carries.old }
{
    match op {
        CarryOp::Adc => carry_out_each(CarryOp::Adc, a, b, carries),
        CarryOp::Sbc => carry_out_each(CarryOp::Sbc, a, b, carries),
    }
}

/// The loop of `compute_carries`.
#[inline(always)]
fn carry_out_each<T: Lane>(op: CarryOp, a: &[T], b: &[T], carries: &mut [bool])
    requires a_len { length a.now ≡ length carries.old }
    requires b_len { length b.now ≡ length carries.old }
    ensures { carries.new ≡ zip3 (T.carry_of op) a.now b.now carries.old }
{
    for i in 0..carries.len() {
        carries[i] = T::carry_out(op, a[i], b[i], carries[i]);
    }
}

/// Writes over each element of `values`, which are vd's, what `op` makes of `a`'s element, which is vs2's, of `b`'s and
/// of itself.
pub fn multiply_add<T: Lane>(op: MultiplyAddOp, a: &[T], b: &[T], values: &mut [T])
    requires a_len { length a.now ≡ length values.old }
    requires b_len { length b.now ≡ length values.old }
    ensures { values.new ≡ zip3 (T.added_of op) a.now b.now values.old }
{
    match op {
        MultiplyAddOp::Macc => multiply_add_chunks(MultiplyAddOp::Macc, a, b, values),
        MultiplyAddOp::Nmsac => multiply_add_chunks(MultiplyAddOp::Nmsac, a, b, values),
        MultiplyAddOp::Madd => multiply_add_chunks(MultiplyAddOp::Madd, a, b, values),
        MultiplyAddOp::Nmsub => multiply_add_chunks(MultiplyAddOp::Nmsub, a, b, values),
    }
}

/// The loop over chunks, and that over the elements after the last of them.
#[inline(always)]
fn multiply_add_chunks<T: Lane>(op: MultiplyAddOp, a: &[T], b: &[T], values: &mut [T])
    requires a_len { length a.now ≡ length values.old }
    requires b_len { length b.now ≡ length values.old }
    ensures { values.new ≡ zip3 (T.added_of op) a.now b.now values.old }
{
    let mut at = 0;
    while values.len() - at >= T::count() {
        T::added_chunk(op, a, b, values, at);
        at += T::count();
    }
    for i in at..values.len() {
        values[i] = T::multiply_add(op, a[i], b[i], values[i]);
    }
}
