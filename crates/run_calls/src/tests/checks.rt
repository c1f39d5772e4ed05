//! What an accepted kernel tells of itself. What is accepted and what is refused is tried by `conformance`, on the rows of
//! `checks.txt` and `orders.txt`.
use crate::tests::assertions::assert_same;
use crate::tests::kernels::accepted;
use cert_note::Vlen;
use sample_kernels::{Kernel, RAISE, RAISE_IF, SUM};
use std::alloc::Global;
use std::process::Abort;

/// The sum of bytes, the loop over strips at each length, and the loop that branches, each with its bound where these numbers
/// are passed.
#[test]
fn accepts_kernels(rt: HostRuntime) {
    let (some, if_some) = ([7, 1024, 7, 7, 7, 7, 7, 7], [0, 17, 1, 0, 0, 0, 0, 0]);
    expect_bounds(rt, rt.alloc(), SUM, Vlen::V128, (2, &some, 5122));
    expect_bounds(rt, rt.alloc(), RAISE, Vlen::V128, (2, &some, 8194));
    expect_bounds(rt, rt.alloc(), RAISE, Vlen::V256, (2, &some, 8194));
    expect_bounds(rt, rt.alloc(), RAISE, Vlen::V512, (2, &some, 8194));
    expect_bounds(rt, rt.alloc(), RAISE_IF, Vlen::V128, (5, &if_some, 141));
}

/// Asserts what is told of a kernel, with its bound where zeros are passed, and where other numbers are.
fn expect_bounds(
    rt: impl Abort + Copy,
    alloc: Global,
    kernel: Kernel,
    vlen: Vlen,
    bounds: (u128, &[u32; 8], u128),
) {
    let (least, numbers, bound) = bounds;
    let accepted = accepted(rt, alloc, kernel, vlen);
    assert_same!(rt; accepted.bound(&[0; 8]), least);
    assert_same!(rt; accepted.bound(numbers), bound);
    assert_same!(rt; accepted.vlen(), vlen);
    assert_same!(rt; accepted.image().entry(), 0x1_0000);
    assert_same!(rt; accepted.certificate().contents().blocks.len(), kernel.blocks);
}
