//! What is known where a block begins, in room that was taken for another one.

ghost use Rattle.std.specs.Prelude.{◌<◌};

use crate::tests::assertions::{assert_same, given};
use crate::tests::kernels::parts_of;
use abs_state::Abstract;
use cert_note::Vlen;
use sample_kernels::SUM;
use std::process::Abort;

/// Asserts in which interval a register is.
fn assert_range(rt: impl Abort + Copy, state: &Abstract, number: usize, lo: u32, hi: u32)
    requires { number < 33 }
{
    let range = state.numbers().range_at(number);
    assert_same!(rt; (range.lo, range.hi), (lo, hi));
}

/// At each block x1 is EXIT. x11 is at most 1,024 at the first, where it may be 0, and not 0 at the
/// second.
#[test]
fn a_state_is_set_to_another_block(rt: HostRuntime) {
    let alloc = rt.alloc();
    let (image, certificate) = parts_of(rt, alloc, SUM, Vlen::V128);
    if certificate.contents().blocks.len() < 2 {
        panic!(rt; "no second block");
    }
    let mut state = given!(rt; Abstract::at_block(alloc, &certificate, &image, 0));
    assert_range(rt, &state, 11, 0, 1024);
    state.set_block(&certificate, &image, 1);
    assert_range(rt, &state, 1, 0xffff_fff0, 0xffff_fff0);
    assert_range(rt, &state, 11, 1, 1024);
    assert_same!(rt; state.words(), 0);
}
