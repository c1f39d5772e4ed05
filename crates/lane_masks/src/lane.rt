//! The widths that the kernels compute in.
ghost use Rattle.std.specs.Prelude.{◌≡◌, ℕ};

use rv_decode::FoldOp;

/// The body of `join`, which is alike at the three widths: what `$op` makes of the value so far and of one more element.
macro_rules! joined {
    ($op:ident, $a:ident, $b:ident) => {
        match $op {
            FoldOp::Sum => $a.wrapping_add($b),
            FoldOp::And => $a & $b,
            FoldOp::Or => $a | $b,
            FoldOp::Xor => $a ^ $b,
            FoldOp::Minu => $a.min($b),
            FoldOp::Min => $a.cast_signed().min($b.cast_signed()).cast_unsigned(),
            FoldOp::Maxu => $a.max($b),
            FoldOp::Max => $a.cast_signed().max($b.cast_signed()).cast_unsigned(),
        }
    };
}

/// An element of one width: `u8`, `u16` or `u32`.
pub trait FoldLane: Copy {
    ghost use Rattle.std.specs.Prelude.{ℕ, ◌≡◌, ◌%◌, ◌^◌, if◌then◌else◌};
    ghost use Rattle.std.specs.Int.{Width, w32, cast_signed, cast_unsigned};
    ghost use mir.Val.{bits};
    ghost use Rattle.lane_masks.specs.Folds.{joined};

    // the width, and the number that an element holds
    ghost width: { Width };

    ghost number: { Self → ℕ };

    /// The element in the lowest bits of a number.
    fn low(value: u32) -> Self
        ensures { number result ≡ value % 2 ^ bits width };

    /// The element extended to 32 bits, by zeros or by its sign.
    fn extended(self, is_signed: bool) -> u32
        ensures { result ≡ (if is_signed then cast_unsigned w32 (cast_signed width (number self))
            else number self) };

    /// The value so far and one more element.
    fn join(op: FoldOp, a: Self, b: Self) -> Self
        ensures { number result ≡ joined op width (number a) (number b) };
}

impl FoldLane for u8 {
    ghost use Rattle.std.specs.Int.{w8};

    ghost width = { w8 };

    ghost number = { λ a. a };

    fn low(value: u32) -> u8 {
        (value % 0x100) as u8
    }

    fn extended(self, is_signed: bool) -> u32 {
        if is_signed {
            i32::from(self.cast_signed()).cast_unsigned()
        } else {
            u32::from(self)
        }
    }

    #[tactic(auto, unfolding(crate::specs::Folds::joined))]
    fn join(op: FoldOp, a: u8, b: u8) -> u8 {
        joined!(op, a, b)
    }
}

impl FoldLane for u16 {
    ghost use Rattle.std.specs.Int.{w16};

    ghost width = { w16 };

    ghost number = { λ a. a };

    fn low(value: u32) -> u16 {
        (value % 0x1_0000) as u16
    }

    fn extended(self, is_signed: bool) -> u32 {
        if is_signed {
            i32::from(self.cast_signed()).cast_unsigned()
        } else {
            u32::from(self)
        }
    }

    #[tactic(auto, unfolding(crate::specs::Folds::joined))]
    fn join(op: FoldOp, a: u16, b: u16) -> u16 {
        joined!(op, a, b)
    }
}

impl FoldLane for u32 {
    ghost use Rattle.std.specs.Int.{w32};

    ghost width = { w32 };

    ghost number = { λ a. a };

    fn low(value: u32) -> u32 {
        value
    }

    fn extended(self, is_signed: bool) -> u32 {
        let _ = is_signed;
        self
    }

    #[tactic(auto, unfolding(crate::specs::Folds::joined))]
    fn join(op: FoldOp, a: u32, b: u32) -> u32 {
        joined!(op, a, b)
    }
}
