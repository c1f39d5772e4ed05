//! Instructions with results wider than what they read: each resolves its operands, reads them, extends what it read,
//! computes and writes. `a` is what is read at SEW; `x` is vs2 and `y` the second operand at 2*SEW.

ghost use Rattle.std.specs.Prelude.{◌≡◌, ◌≤◌, ◌*◌, ◌/◌, length};
ghost use Rattle.rv_decode.specs.Needs.{eew_of, needs_of_arith};
ghost use Rattle.vreg_groups.specs.Legality.{eew_bits};
ghost use Rattle.vector_core.specs.Arithmetic.{arith_of};
ghost use Rattle.vector_core.specs.Computed.{exact};
ghost use Rattle.vector_core.specs.Rooms.{IsRoom};
ghost use Rattle.vector_core.specs.Shapes.{ExtendShape, IsShaped, WideShape};
ghost use Rattle.vector_core.specs.Shapes.{WidenMultiplyAddShape, WidenShape, shape_of};
ghost use Rattle.vector_core.specs.Integer.{lane_width};
ghost use Rattle.vector_core.specs.Setup.{IsReady};
ghost use Rattle.vector_core.specs.Widening.{fraction_width};

use crate::elements::{VectorElement, zero};
use crate::operands::write_results;
use crate::operations::{
    is_wide_signed, wide_lanes, widen_lanes, widen_multiply_add_signs, widen_signs,
};
use crate::resizing::{HalfOf, extend_results, read_doubled};
use crate::rooms::{body_law, with_room};
use crate::setup::Setup;
use crate::shapes::of_shape;
use lane_int::Narrow;
use rv_decode::{Eew, Fraction, MultiplyAddOp, Source, VArith, Width};
use scalar_core::Scalar;
use vreg_groups::VregFile;

/// vd is an operation on vs2 and b, both of SEW.
#[tactic(auto, using(crate::proofs::Numbers::map_two), unfolding(rv_decode::specs::Needs::needs_of_arith, crate::specs::Widening::widen_of, crate::specs::Operands::second_of, crate::specs::Arithmetic::arith_of))]
pub fn widen<N: HalfOf<W>, W: VectorElement, const VLENB: usize>(
    registers: &mut VregFile<VLENB>,
    scalar: &Scalar,
    setup: &Setup,
    insn: &VArith,
    a: &mut [N],
    x: &mut [W],
    y: &mut [W],
)
    requires shape { IsShaped VLENB setup.now N.sew insn.now WidenShape }
    requires a_len { length a.old ≡ setup.now.vl }
    requires x_len { length x.old ≡ setup.now.vl }
    requires y_len { length y.old ≡ setup.now.vl }
    ensures { arith_of VLENB setup.now scalar.now insn.now registers.old ≡ exact registers.new }
{
    of_shape!(VArith::Widen(op, vd, vs2, b, masked) = insn);
    let destination = setup.group(*vd, Eew::Double);
    let signs = widen_signs(*op);
    let vs2 = Source::Vector(*vs2);
    read_doubled(registers, scalar, setup, vs2, signs.vs2, a, x);
    read_doubled(registers, scalar, setup, *b, signs.b, a, y);
    lane_int::compute(widen_lanes(*op), x, y);
    write_results(registers, setup, &destination, *masked, x);
}

/// vd is an operation on vs2, of 2*SEW, and b, of SEW.
#[tactic(auto, using(crate::proofs::Numbers::map_two), unfolding(rv_decode::specs::Needs::needs_of_arith, crate::specs::Widening::wide_of, crate::specs::Arithmetic::arith_of))]
pub fn wide<N: HalfOf<W>, W: VectorElement, const VLENB: usize>(
    registers: &mut VregFile<VLENB>,
    scalar: &Scalar,
    setup: &Setup,
    insn: &VArith,
    a: &mut [N],
    x: &mut [W],
    y: &mut [W],
)
    requires shape { IsShaped VLENB setup.now N.sew insn.now WideShape }
    requires a_len { length a.old ≡ setup.now.vl }
    requires x_len { length x.old ≡ setup.now.vl }
    requires y_len { length y.old ≡ setup.now.vl }
    ensures { arith_of VLENB setup.now scalar.now insn.now registers.old ≡ exact registers.new }
{
    of_shape!(VArith::Wide(op, vd, vs2, b, masked) = insn);
    let destination = setup.group(*vd, Eew::Double);
    let source = setup.group::<VLENB>(*vs2, Eew::Double);
    source.read(registers, x);
    read_doubled(registers, scalar, setup, *b, is_wide_signed(*op), a, y);
    lane_int::compute(wide_lanes(*op), x, y);
    write_results(registers, setup, &destination, *masked, x);
}

/// vd is the product of b and vs2, both of SEW, and the old vd together, of whose elements a body has at most MOST.
#[tactic(auto, using(crate::proofs::Numbers::map_three), unfolding(rv_decode::specs::Needs::needs_of_arith, crate::specs::Widening::widen_multiply_add_of, crate::specs::Operands::second_of, crate::specs::Arithmetic::arith_of))]
pub fn widen_multiply_add<N: HalfOf<W>, W: VectorElement, const MOST: usize, const VLENB: usize>(
    registers: &mut VregFile<VLENB>,
    scalar: &Scalar,
    setup: &Setup,
    insn: &VArith,
    a: &mut [N],
    x: &mut [W],
    y: &mut [W],
)
    requires room { IsRoom VLENB W.row W.SIZE MOST }
    requires body { W.SIZE * setup.now.vl ≤ 8 * VLENB }
    requires shape { IsShaped VLENB setup.now N.sew insn.now WidenMultiplyAddShape }
    requires a_len { length a.old ≡ setup.now.vl }
    requires x_len { length x.old ≡ setup.now.vl }
    requires y_len { length y.old ≡ setup.now.vl }
    ensures { arith_of VLENB setup.now scalar.now insn.now registers.old ≡ exact registers.new }
{
    of_shape!(VArith::WidenMultiplyAdd(op, vd, vs2, b, masked) = insn);
    let mut d = [zero::<W>(); MOST];
    let d = &mut d[..setup.vl];
    let destination = setup.group(*vd, Eew::Double);
    let signs = widen_multiply_add_signs(*op);
    let vs2 = Source::Vector(*vs2);
    read_doubled(registers, scalar, setup, vs2, signs.vs2, a, x);
    read_doubled(registers, scalar, setup, *b, signs.b, a, y);
    destination.read(registers, d);
    lane_int::multiply_add(MultiplyAddOp::Macc, x, y, d);
    write_results(registers, setup, &destination, *masked, d);
}

/// vd is vs2, of this fraction of SEW, with zeros or its sign above.
#[tactic(auto, unfolding(rv_decode::specs::Needs::needs_of_arith, vreg_groups::specs::Legality::element_bits))]
pub fn extend<const VLENB: usize>(
    registers: &mut VregFile<VLENB>,
    scalar: &Scalar,
    setup: &Setup,
    insn: &VArith,
    of: Fraction,
)
    requires shape { shape_of insn.now ≡ ExtendShape of }
    requires ready { IsReady VLENB setup.now (needs_of_arith insn.now) }
    ensures { arith_of VLENB setup.now scalar.now insn.now registers.old ≡ exact registers.new }
{
    let VArith::Extend { .. } = insn else {
        unreachable!()
    };
    let sew = setup.vtype.sew;
    match (of, sew) {
        (Fraction::Half, Width::W16) => {
            with_room!(
                extend_elements < u8,
                u16 > (64, 128, 256)(registers, scalar, setup, insn, of)
            );
        }
        (Fraction::Half, Width::W32) => {
            with_room!(
                extend_elements < u16,
                u32 > (32, 64, 128)(registers, scalar, setup, insn, of)
            );
        }
        (Fraction::Quarter, Width::W32) => {
            with_room!(
                extend_elements < u8,
                u32 > (32, 64, 128)(registers, scalar, setup, insn, of)
            );
        }
        (Fraction::Half, Width::W8) | (Fraction::Quarter, Width::W8 | Width::W16) => unreachable!(),
    }
}

/// The same on elements of these widths.
#[tactic(auto, unfolding(rv_decode::specs::Needs::needs_of_arith, crate::specs::Widening::extend_of, crate::specs::Arithmetic::arith_of))]
fn extend_elements<
    N: VectorElement + Narrow<W>,
    W: VectorElement,
    const MOST: usize,
    const VLENB: usize,
>(registers: &mut VregFile<VLENB>, scalar: &Scalar, setup: &Setup, insn: &VArith, of: Fraction)
    requires shape { IsShaped VLENB setup.now W.sew insn.now (ExtendShape of) }
    requires narrow_room { IsRoom VLENB N.row W.SIZE MOST }
    requires room { IsRoom VLENB W.row W.SIZE MOST }
    requires size { N.SIZE ≡ eew_bits setup.now.vtype.sew (eew_of of) / 8 }
    requires lanes { lane_width N.sew ≡ fraction_width setup.now.vtype.sew of }
    ensures { arith_of VLENB setup.now scalar.now insn.now registers.old ≡ exact registers.new }
{
    let VArith::Extend {
        signed,
        vd,
        vs2,
        masked,
        ..
    } = insn
    else {
        unreachable!()
    };
    body_law::<VLENB>(setup);
    let destination = setup.group(*vd, Eew::Same);
    let source = setup.group::<VLENB>(*vs2, of.eew());
    let vl = setup.vl;
    let mut a = [zero::<N>(); MOST];
    let mut x = [zero::<W>(); MOST];
    let (a, x) = (&mut a[..vl], &mut x[..vl]);
    source.read(registers, a);
    extend_results(*signed, a, x);
    write_results(registers, setup, &destination, *masked, x);
}
