//! Instructions that read vs2 at 2*SEW and give results of SEW: each resolves its operands, reads them, computes and writes.
//! `a` is what is read from the second operand, and then the result; `x` is vs2.

ghost use Rattle.std.specs.Prelude.{◌≡◌, ◌≤◌, ◌*◌, length};
ghost use Rattle.vector_core.specs.Arithmetic.{arith_of};
ghost use Rattle.vector_core.specs.Computed.{exact};
ghost use Rattle.vector_core.specs.Rooms.{IsRoom};
ghost use Rattle.vector_core.specs.Shapes.{ClipShape, IsShaped, NarrowShape};

use crate::elements::{VectorElement, zero};
use crate::fixed_point::rounding_mode;
use crate::operands::{read_second, write_results};
use crate::operations::narrow_lanes;
use crate::resizing::{HalfOf, cut_results, read_doubled};
use crate::setup::Setup;
use crate::shapes::of_shape;
use rv_decode::{Eew, VArith};
use scalar_core::Scalar;
use vreg_groups::{MOST_ELEMENTS, VregFile};

/// vd is the low half of vs2 shifted right by b, which there is room for at 2*SEW in `y`.
#[tactic(auto, using(crate::proofs::Numbers::map_two), unfolding(rv_decode::specs::Needs::needs_of_arith, crate::specs::Narrowing::narrow_of, crate::specs::Arithmetic::arith_of))]
pub fn narrow<N: HalfOf<W>, W: VectorElement, const VLENB: usize>(
    registers: &mut VregFile<VLENB>,
    scalar: &Scalar,
    setup: &Setup,
    insn: &VArith,
    a: &mut [N],
    x: &mut [W],
    y: &mut [W],
)
    requires shape { IsShaped VLENB setup.now N.sew insn.now NarrowShape }
    requires a_len { length a.old ≡ setup.now.vl }
    requires x_len { length x.old ≡ setup.now.vl }
    requires y_len { length y.old ≡ setup.now.vl }
    ensures { arith_of VLENB setup.now scalar.now insn.now registers.old ≡ exact registers.new }
{
    of_shape!(VArith::Narrow(op, vd, vs2, b, masked) = insn);
    let destination = setup.group(*vd, Eew::Same);
    let source = setup.group::<VLENB>(*vs2, Eew::Double);
    source.read(registers, x);
    read_doubled(registers, scalar, setup, *b, false, a, y);
    lane_int::compute(narrow_lanes(*op), x, y);
    cut_results(x, a);
    write_results(registers, setup, &destination, *masked, a);
}

/// vd is vs2, rounded off by b bits and clipped to SEW, of whose elements a body has at most MOST. Tells whether an active
/// element saturated.
#[tactic(auto, unfolding(rv_decode::specs::Needs::needs_of_arith, crate::specs::Narrowing::clip_of, crate::specs::Arithmetic::arith_of))]
pub fn clip<N: HalfOf<W>, W: VectorElement, const MOST: usize, const VLENB: usize>(
    registers: &mut VregFile<VLENB>,
    scalar: &Scalar,
    setup: &Setup,
    insn: &VArith,
    a: &mut [N],
    x: &mut [W],
) -> bool
    requires room { IsRoom VLENB N.row W.SIZE MOST }
    requires body { W.SIZE * setup.now.vl ≤ 8 * VLENB }
    requires shape { IsShaped VLENB setup.now N.sew insn.now ClipShape }
    requires a_len { length a.old ≡ setup.now.vl }
    requires x_len { length x.old ≡ setup.now.vl }
    ensures { arith_of VLENB setup.now scalar.now insn.now registers.old
        ≡ record { registers = registers.new; saturated = result } }
{
    of_shape!(VArith::Clip(op, vd, vs2, b, masked) = insn);
    let destination = setup.group(*vd, Eew::Same);
    let source = setup.group::<VLENB>(*vs2, Eew::Double);
    let mut c = [zero::<N>(); MOST];
    let c = &mut c[..setup.vl];
    let mut bits = [false; MOST_ELEMENTS];
    let active = &mut bits[..setup.vl];
    source.read(registers, x);
    read_second(registers, scalar, setup, *b, a);
    registers.read_active(*masked, active);
    let mode = rounding_mode(scalar.vxrm());
    let saturated = lane_fixed::clip(*op, mode, x, a, active, c);
    write_results(registers, setup, &destination, *masked, c);
    saturated
}
