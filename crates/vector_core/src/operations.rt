//! How an instruction of another width than its lanes' is one of their operations: which one, and how its sources of SEW
//! are extended where it works at 2*SEW.

ghost use Rattle.std.specs.Prelude.{◌≡◌};
ghost use Rattle.vector_core.specs.Operations.{carry_out_lanes, is_wide_signed, narrow_lanes};
ghost use Rattle.vector_core.specs.Operations.{wide_lanes, widen_lanes, widen_multiply_add_signs};
ghost use Rattle.vector_core.specs.Operations.{widen_signs};

use rv_decode::{CarryOp, CarryOutOp, IntOp, NarrowOp, WideOp, WidenMultiplyAddOp, WidenOp};

#[tactic(auto, unfolding(crate::specs::Operations::carry_out_lanes))]
pub fn carry_out_lanes(op: CarryOutOp) -> CarryOp
    ensures { result ≡ carry_out_lanes op }
{
    match op {
        CarryOutOp::Madc => CarryOp::Adc,
        CarryOutOp::Msbc => CarryOp::Sbc,
    }
}

/// Which sources of SEW are signed.
#[derive(Clone, Copy)]
pub struct Signs {
    pub vs2: bool,
    pub b: bool,
}

const UNSIGNED: Signs = Signs {
    vs2: false,
    b: false,
};

const SIGNED: Signs = Signs { vs2: true, b: true };

#[tactic(auto, unfolding(crate::specs::Operations::widen_lanes))]
pub fn widen_lanes(op: WidenOp) -> IntOp
    ensures { result ≡ widen_lanes op }
{
    match op {
        WidenOp::Addu | WidenOp::Add => IntOp::Add,
        WidenOp::Subu | WidenOp::Sub => IntOp::Sub,
        WidenOp::Mulu | WidenOp::Mulsu | WidenOp::Mul => IntOp::Mul,
    }
}

#[tactic(auto, unfolding(crate::specs::Operations::widen_signs))]
pub fn widen_signs(op: WidenOp) -> Signs
    ensures { result ≡ widen_signs op }
{
    match op {
        WidenOp::Addu | WidenOp::Subu | WidenOp::Mulu => UNSIGNED,
        WidenOp::Add | WidenOp::Sub | WidenOp::Mul => SIGNED,
        WidenOp::Mulsu => Signs {
            vs2: true,
            b: false,
        },
    }
}

#[tactic(auto, unfolding(crate::specs::Operations::wide_lanes))]
pub fn wide_lanes(op: WideOp) -> IntOp
    ensures { result ≡ wide_lanes op }
{
    match op {
        WideOp::Addu | WideOp::Add => IntOp::Add,
        WideOp::Subu | WideOp::Sub => IntOp::Sub,
    }
}

#[tactic(auto, unfolding(crate::specs::Operations::is_wide_signed))]
pub fn is_wide_signed(op: WideOp) -> bool
    ensures { result ≡ is_wide_signed op }
{
    match op {
        WideOp::Addu | WideOp::Subu => false,
        WideOp::Add | WideOp::Sub => true,
    }
}

#[tactic(auto, unfolding(crate::specs::Operations::widen_multiply_add_signs))]
pub fn widen_multiply_add_signs(op: WidenMultiplyAddOp) -> Signs
    ensures { result ≡ widen_multiply_add_signs op }
{
    match op {
        WidenMultiplyAddOp::Maccu => UNSIGNED,
        WidenMultiplyAddOp::Macc => SIGNED,
        WidenMultiplyAddOp::Maccus => Signs {
            vs2: true,
            b: false,
        },
        WidenMultiplyAddOp::Maccsu => Signs {
            vs2: false,
            b: true,
        },
    }
}

#[tactic(auto, unfolding(crate::specs::Operations::narrow_lanes))]
pub fn narrow_lanes(op: NarrowOp) -> IntOp
    ensures { result ≡ narrow_lanes op }
{
    match op {
        NarrowOp::Srl => IntOp::Srl,
        NarrowOp::Sra => IntOp::Sra,
    }
}
