//! Integer instructions on elements of SEW: each resolves its operands, reads them, computes and writes. `a` is what is
//! read from vs2, and `c` from the second operand; both have room for the body.

ghost use Rattle.std.specs.Prelude.{◌≡◌, length};
ghost use Rattle.vector_core.specs.Arithmetic.{arith_of};
ghost use Rattle.vector_core.specs.Computed.{exact};
ghost use Rattle.vector_core.specs.Rooms.{IsRoom};
ghost use Rattle.vector_core.specs.Shapes.{CarryOutShape, CarryShape, CompareShape, IntShape};
ghost use Rattle.vector_core.specs.Shapes.{IsShaped, MultiplyAddShape};
ghost use Rattle.vector_core.specs.Integer.{carry_in};
ghost use Rattle.vector_core.specs.Setup.{IsSetup};

use crate::elements::{VectorElement, zero};
use crate::operands::{read_bits, read_body, read_second, write_bits, write_results};
use crate::operations::carry_out_lanes;
use crate::rooms::body_law;
use crate::setup::Setup;
use crate::shapes::of_shape;
use rv_decode::{Eew, Reg, VArith};
use scalar_core::Scalar;
use vreg_groups::{MOST_ELEMENTS, VregFile};

/// vd is an operation on vs2 and b.
#[tactic(auto, unfolding(rv_decode::specs::Needs::needs_of_arith))]
pub fn int<E: VectorElement, const VLENB: usize>(
    registers: &mut VregFile<VLENB>,
    scalar: &Scalar,
    setup: &Setup,
    insn: &VArith,
    a: &mut [E],
    c: &mut [E],
)
    requires shape { IsShaped VLENB setup.now E.sew insn.now IntShape }
    requires a_len { length a.old ≡ setup.now.vl }
    requires c_len { length c.old ≡ setup.now.vl }
    ensures { arith_of VLENB setup.now scalar.now insn.now registers.old ≡ exact registers.new }
{
    of_shape!(VArith::Int(op, vd, vs2, b, masked) = insn);
    let destination = setup.group(*vd, Eew::Same);
    read_body(registers, setup, *vs2, a);
    read_second(registers, scalar, setup, *b, c);
    lane_int::compute(*op, a, c);
    write_results(registers, setup, &destination, *masked, a);
}

/// vd is a product and a sum of b, vs2 and the old vd, of whose elements a body has at most MOST.
#[tactic(auto, unfolding(rv_decode::specs::Needs::needs_of_arith))]
pub fn multiply_add<E: VectorElement, const MOST: usize, const VLENB: usize>(
    registers: &mut VregFile<VLENB>,
    scalar: &Scalar,
    setup: &Setup,
    insn: &VArith,
    a: &mut [E],
    c: &mut [E],
)
    requires room { IsRoom VLENB E.row E.SIZE MOST }
    requires shape { IsShaped VLENB setup.now E.sew insn.now MultiplyAddShape }
    requires a_len { length a.old ≡ setup.now.vl }
    requires c_len { length c.old ≡ setup.now.vl }
    ensures { arith_of VLENB setup.now scalar.now insn.now registers.old ≡ exact registers.new }
{
    of_shape!(VArith::MultiplyAdd(op, vd, vs2, b, masked) = insn);
    body_law::<VLENB>(setup);
    let mut d = [zero::<E>(); MOST];
    let d = &mut d[..setup.vl];
    let destination = setup.group(*vd, Eew::Same);
    read_body(registers, setup, *vs2, a);
    read_second(registers, scalar, setup, *b, c);
    destination.read(registers, d);
    lane_int::multiply_add(*op, a, c, d);
    write_results(registers, setup, &destination, *masked, d);
}

/// vd is a sum or difference of vs2, b and the bit of v0.
#[tactic(auto, unfolding(rv_decode::specs::Needs::needs_of_arith))]
pub fn carry<E: VectorElement, const VLENB: usize>(
    registers: &mut VregFile<VLENB>,
    scalar: &Scalar,
    setup: &Setup,
    insn: &VArith,
    a: &mut [E],
    c: &mut [E],
)
    requires shape { IsShaped VLENB setup.now E.sew insn.now CarryShape }
    requires a_len { length a.old ≡ setup.now.vl }
    requires c_len { length c.old ≡ setup.now.vl }
    ensures { arith_of VLENB setup.now scalar.now insn.now registers.old ≡ exact registers.new }
{
    of_shape!(VArith::Carry(op, vd, vs2, b) = insn);
    let destination = setup.group(*vd, Eew::Same);
    let mut bits = [false; MOST_ELEMENTS];
    let carries = &mut bits[..setup.vl];
    read_body(registers, setup, *vs2, a);
    read_second(registers, scalar, setup, *b, c);
    read_bits(registers, setup, Reg::new(0), carries);
    lane_int::compute_carried(*op, a, c, carries);
    write_results(registers, setup, &destination, false, a);
}

/// The bits of vd are the carries or borrows of vs2 and b, with the bit of v0 where `with_carry` says so.
#[tactic(auto, unfolding(rv_decode::specs::Needs::needs_of_arith))]
pub fn carry_out<E: VectorElement, const VLENB: usize>(
    registers: &mut VregFile<VLENB>,
    scalar: &Scalar,
    setup: &Setup,
    insn: &VArith,
    a: &mut [E],
    c: &mut [E],
)
    requires shape { IsShaped VLENB setup.now E.sew insn.now CarryOutShape }
    requires a_len { length a.old ≡ setup.now.vl }
    requires c_len { length c.old ≡ setup.now.vl }
    ensures { arith_of VLENB setup.now scalar.now insn.now registers.old ≡ exact registers.new }
{
    of_shape!(VArith::CarryOut(op, vd, vs2, b, with_carry) = insn);
    let mut bits = [false; MOST_ELEMENTS];
    let carries = &mut bits[..setup.vl];
    read_body(registers, setup, *vs2, a);
    read_second(registers, scalar, setup, *b, c);
    read_carries(registers, setup, *with_carry, carries);
    lane_int::compute_carries(carry_out_lanes(*op), a, c, carries);
    write_bits(registers, setup, *vd, false, carries);
}

/// The bits of vd say how vs2 compares with b.
#[tactic(auto, unfolding(rv_decode::specs::Needs::needs_of_arith))]
pub fn compare<E: VectorElement, const VLENB: usize>(
    registers: &mut VregFile<VLENB>,
    scalar: &Scalar,
    setup: &Setup,
    insn: &VArith,
    a: &mut [E],
    c: &mut [E],
)
    requires shape { IsShaped VLENB setup.now E.sew insn.now CompareShape }
    requires a_len { length a.old ≡ setup.now.vl }
    requires c_len { length c.old ≡ setup.now.vl }
    ensures { arith_of VLENB setup.now scalar.now insn.now registers.old ≡ exact registers.new }
{
    of_shape!(VArith::Compare(op, vd, vs2, b, masked) = insn);
    let mut bits = [false; MOST_ELEMENTS];
    let results = &mut bits[..setup.vl];
    read_body(registers, setup, *vs2, a);
    read_second(registers, scalar, setup, *b, c);
    lane_int::compare(*op, a, c, results);
    write_bits(registers, setup, *vd, *masked, results);
}

/// Reads the carries or borrows that go in: the bits of v0, or none.
fn read_carries<const VLENB: usize>(
    registers: &VregFile<VLENB>,
    setup: &Setup,
    with_carry: bool,
    bits: &mut [bool],
)
    requires len { length bits.old ≡ setup.now.vl }
    requires setup { IsSetup VLENB setup.now }
    ensures { bits.new ≡ carry_in VLENB with_carry setup.now.vl registers.now }
{
    if with_carry {
        read_bits(registers, setup, Reg::new(0), bits);
    } else {
        bits.fill(false);
    }
}
