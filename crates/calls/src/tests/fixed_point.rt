//! How the kernels are called. Expected values are worked out by hand from the standard's rules on rounding.

use crate::tests::assertions::assert_same;
use lane_fixed::RoundingMode::{Down, NearestEven, NearestUp, Odd};
use lane_fixed::{clip, compute};
use rv_decode::{ClipOp, FixedOp};

#[test]
fn elements_are_rounded_and_saturate(rt: HostRuntime) {
    // 6, 10 and -6 shifted right by two.
    for (mode, expected) in [
        (NearestUp, [2, 3, 0xff]),
        (NearestEven, [2, 2, 0xfe]),
        (Down, [1, 2, 0xfe]),
        (Odd, [1, 3, 0xff]),
    ] {
        let mut values = [6u8, 10, 0xfa];
        let is_saturated = compute(
            FixedOp::Ssra,
            mode,
            values.as_mut_slice(),
            [2u8; 3].as_slice(),
            [true; 3].as_slice(),
        );
        assert_same!(rt; (values, is_saturated), (expected, false));
    }
    // A product saturates only where it is active.
    for is_active in [true, false] {
        let mut values = [0x80u8];
        let is_saturated = compute(
            FixedOp::Smul,
            NearestUp,
            values.as_mut_slice(),
            [0x80u8].as_slice(),
            [is_active].as_slice(),
        );
        assert_same!(rt; (values, is_saturated), ([0x7f], is_active));
    }
}

#[test]
fn a_clip_is_judged_after_rounding(rt: HostRuntime) {
    let mut results = [0u8; 2];
    let is_saturated = clip(
        ClipOp::Clipu,
        NearestUp,
        [0x01ffu16, 0x01fe].as_slice(),
        [1u8, 1].as_slice(),
        [false, true].as_slice(),
        results.as_mut_slice(),
    );
    assert_same!(rt; results, [0xff, 0xff]);
    assert_same!(rt; is_saturated, false);
}
