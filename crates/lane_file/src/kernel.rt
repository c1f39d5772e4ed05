//! The classes of operations that are done where the registers lie.

use crate::byte_lane::ByteLane;
use lane_fixed::Op;
use rv_decode::{IntOp, MultiplyAddOp};
use std::simd::prelude::*;

/// A class of operations on vs2, a second source and vd's old elements: each class has loops of its own.
pub(crate) trait Kernel: Copy {
    ghost use Rattle.std.specs.Prelude.{◌≡◌, ℕ, Bool, ◌*◌, ◌<◌, true};
    ghost use Rattle.std.specs.Int.{Width};
    ghost use Rattle.byteorder.specs.Endian.{little_from};

    // what it answers of an element of vs2, one of the second source, and the old one of vd
    ghost answer: { Self → Width → ℕ → ℕ → ℕ → ℕ };

    // the operations that a chunk call has
    ghost has_call: { Self → Bool };

    /// What it makes of the elements of vs2, which are `values`, of those of the second source, and of vd's old ones.
    fn results<E: ByteLane>(self, values: u8x16, b: u8x16, old: u8x16) -> u8x16
        requires call { has_call self ≡ true }
        ensures { (j : ℕ) → j < E.Lane.count → little_from (E.Lane.size * j) E.Lane.size result
            ≡ answer self E.Lane.width (little_from (E.Lane.size * j) E.Lane.size values)
            (little_from (E.Lane.size * j) E.Lane.size b)
            (little_from (E.Lane.size * j) E.Lane.size old) };
}

/// Of vs2 and the second source.
impl Kernel for IntOp {
    ghost use Rattle.lane_int.specs.Chunks.{has_chunk};
    ghost use Rattle.lane_int.specs.Integer.{element};

    ghost answer = { λ op w a b d. element op w a b };

    ghost has_call = { has_chunk };

    #[inline(always)]
    fn results<E: ByteLane>(self, values: u8x16, b: u8x16, old: u8x16) -> u8x16 {
        let _ = old;
        E::byte_chunk(self, values, b)
    }
}

/// vmacc to vnmsub.
impl Kernel for MultiplyAddOp {
    ghost use Rattle.std.specs.Prelude.{true};
    ghost use Rattle.lane_int.specs.Integer.{multiply_added};

    ghost answer = { multiply_added };

    ghost has_call = { λ op. true };

    #[inline(always)]
    fn results<E: ByteLane>(self, values: u8x16, b: u8x16, old: u8x16) -> u8x16 {
        E::added(self, values, b, old)
    }
}

/// In fixed point, of vs2 and the second source.
impl Kernel for Op {
    ghost use Rattle.std.specs.Prelude.{true};
    ghost use Rattle.lane_fixed.specs.Chunks.{lane_result};

    ghost answer = { λ op w a b d. lane_result op w a b };

    ghost has_call = { λ op. true };

    #[inline(always)]
    fn results<E: ByteLane>(self, values: u8x16, b: u8x16, old: u8x16) -> u8x16 {
        let _ = old;
        let both = E::fixed(self, values, b);
        both.0
    }
}
