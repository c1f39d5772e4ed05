//! Fixed-point instructions on elements of SEW: each resolves its operands, reads them, computes and writes, and tells
//! whether an active element saturated.

ghost use Rattle.std.specs.Prelude.{◌≡◌, length};
ghost use Rattle.vector_core.specs.Arithmetic.{arith_of};
ghost use Rattle.vector_core.specs.Shapes.{FixedShape, IsShaped};
ghost use Rattle.vector_core.specs.FixedPoint.{rounding_of};

use crate::elements::VectorElement;
use crate::operands::{read_body, read_second, write_results};
use crate::setup::Setup;
use crate::shapes::of_shape;
use lane_fixed::RoundingMode;
use rv_decode::{Eew, VArith};
use scalar_core::Scalar;
use vreg_groups::{MOST_ELEMENTS, VregFile};

/// The rounding mode that vxrm holds.
#[tactic(auto, unfolding(crate::specs::FixedPoint::rounding_of))]
pub fn rounding_mode(vxrm: u32) -> RoundingMode
    ensures { result ≡ rounding_of vxrm }
{
    match vxrm {
        0 => RoundingMode::NearestUp,
        1 => RoundingMode::NearestEven,
        2 => RoundingMode::Down,
        _ => RoundingMode::Odd,
    }
}

/// vd is a fixed-point operation on vs2 and b. `a` and `c` have room for the body of both.
#[tactic(auto, unfolding(rv_decode::specs::Needs::needs_of_arith, crate::specs::FixedPoint::fixed_of, crate::specs::Arithmetic::arith_of))]
pub fn fixed<E: VectorElement, const VLENB: usize>(
    registers: &mut VregFile<VLENB>,
    scalar: &Scalar,
    setup: &Setup,
    insn: &VArith,
    a: &mut [E],
    c: &mut [E],
) -> bool
    requires shape { IsShaped VLENB setup.now E.sew insn.now FixedShape }
    requires a_len { length a.old ≡ setup.now.vl }
    requires c_len { length c.old ≡ setup.now.vl }
    ensures { arith_of VLENB setup.now scalar.now insn.now registers.old
        ≡ record { registers = registers.new; saturated = result } }
{
    of_shape!(VArith::Fixed(op, vd, vs2, b, masked) = insn);
    let destination = setup.group(*vd, Eew::Same);
    let mut bits = [false; MOST_ELEMENTS];
    let active = &mut bits[..setup.vl];
    read_body(registers, setup, *vs2, a);
    read_second(registers, scalar, setup, *b, c);
    registers.read_active(*masked, active);
    let mode = rounding_mode(scalar.vxrm());
    let saturated = lane_fixed::compute(*op, mode, a, c, active);
    write_results(registers, setup, &destination, *masked, a);
    saturated
}
