//! Operations that are done on the registers where they lie, with no rooms for elements.

ghost use Rattle.std.specs.Prelude.{◌≡◌, IfSome, List, None, ℕ, false, true};
ghost use Rattle.lane_file.specs.InPlace.{IsSecondInside, second_of as second_in_place};
ghost use Rattle.rv_decode.specs.Needs.{second as second_group};
ghost use Rattle.vreg_groups.specs.Legality.{IsInside};
ghost use Rattle.vector_core.specs.Arithmetic.{arith_of};
ghost use Rattle.vector_core.specs.Computed.{exact};
ghost use Rattle.vector_core.specs.Operands.{second_of};
ghost use Rattle.vector_core.specs.Shapes.{FixedShape, IntShape, IsShaped, MultiplyAddShape};

use crate::elements::{VectorElement, low_bits};
use crate::fixed_point::rounding_mode;
use crate::setup::Setup;
use crate::shapes::of_shape;
use lane_file::Second;
use rv_decode::{Source, VArith};
use scalar_core::Scalar;
use vreg_groups::VregFile;

/// The second operand: its group, or its element.
#[tactic(auto, unfolding(crate::specs::Operands::second_of, lane_file::specs::InPlace::second_of))]
fn second<E: VectorElement, const VLENB: usize>(
    scalar: &Scalar,
    setup: &Setup,
    b: Source,
) -> Second<E>
    requires width { E.sew ≡ setup.now.vtype.sew }
    requires inside { IfSome (second_group b) (IsInside setup.now.vtype) }
    ensures inside { IsSecondInside setup.now.vtype result }
    ensures meaning { (file : List ℕ) → second_in_place VLENB E.Lane.number setup.now result file
        ≡ second_of VLENB setup.now scalar.now b file }
{
    let _ = setup;
    match b {
        Source::Vector(vs1) => Second::Group(vs1),
        Source::Scalar(rs1) => Second::Splat(low_bits(scalar.reg(rs1))),
        Source::Immediate(imm) => Second::Splat(low_bits(imm.cast_unsigned())),
    }
}

/// vd is an operation on vs2 and b, where the lanes work on the registers. Tells whether they did.
#[tactic(auto, unfolding(rv_decode::specs::Needs::needs_of_arith, crate::specs::Integer::int_of, crate::specs::Operands::results_written, crate::specs::Arithmetic::arith_of, lane_file::specs::InPlace::int_written))]
pub fn int_in_place<E: VectorElement, const VLENB: usize>(
    registers: &mut VregFile<VLENB>,
    scalar: &Scalar,
    setup: &Setup,
    insn: &VArith,
) -> bool
    requires { IsShaped VLENB setup.now E.sew insn.now IntShape }
    ensures done { result ≡ true → arith_of VLENB setup.now scalar.now insn.now registers.old
        ≡ exact registers.new }
    ensures kept { result ≡ false → registers.new ≡ registers.old }
{
    of_shape!(VArith::Int(op, vd, vs2, b, masked) = insn);
    let second = second::<E, VLENB>(scalar, setup, *b);
    lane_file::int(registers, setup, *op, *vd, *vs2, second, *masked)
}

/// vd is a product and a sum of b, vs2 and the old vd, in the same way.
#[tactic(auto, unfolding(rv_decode::specs::Needs::needs_of_arith, crate::specs::Integer::multiply_add_of, crate::specs::Operands::results_written, crate::specs::Arithmetic::arith_of, lane_file::specs::InPlace::all_written))]
pub fn multiply_add_in_place<E: VectorElement, const VLENB: usize>(
    registers: &mut VregFile<VLENB>,
    scalar: &Scalar,
    setup: &Setup,
    insn: &VArith,
) -> bool
    requires { IsShaped VLENB setup.now E.sew insn.now MultiplyAddShape }
    ensures done { result ≡ true → arith_of VLENB setup.now scalar.now insn.now registers.old
        ≡ exact registers.new }
    ensures kept { result ≡ false → registers.new ≡ registers.old }
{
    of_shape!(VArith::MultiplyAdd(op, vd, vs2, b, masked) = insn);
    let second = second::<E, VLENB>(scalar, setup, *b);
    lane_file::multiply_add(registers, setup, *op, *vd, *vs2, second, *masked)
}

/// vd is a fixed-point operation on vs2 and b, in the same way. Where it is done, it tells whether an active element
/// saturated.
#[tactic(auto, unfolding(rv_decode::specs::Needs::needs_of_arith, crate::specs::FixedPoint::fixed_of, crate::specs::Operands::results_written, crate::specs::Arithmetic::arith_of, lane_file::specs::InPlace::fixed_written, lane_file::specs::InPlace::fixed_saturated))]
pub fn fixed_in_place<E: VectorElement, const VLENB: usize>(
    registers: &mut VregFile<VLENB>,
    scalar: &Scalar,
    setup: &Setup,
    insn: &VArith,
) -> Option<bool>
    requires { IsShaped VLENB setup.now E.sew insn.now FixedShape }
    ensures done { IfSome result (λ told. arith_of VLENB setup.now scalar.now insn.now registers.old
        ≡ record { registers = registers.new; saturated = told }) }
    ensures kept { result ≡ None → registers.new ≡ registers.old }
{
    of_shape!(VArith::Fixed(op, vd, vs2, b, masked) = insn);
    let second = second::<E, VLENB>(scalar, setup, *b);
    let mode = rounding_mode(scalar.vxrm());
    lane_file::fixed(registers, setup, *op, mode, *vd, *vs2, second, *masked)
}
