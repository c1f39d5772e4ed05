//! Instructions that put elements of SEW, or whole registers, somewhere as they are.

ghost use Rattle.std.specs.Prelude.{◌≡◌, Ok, length};
ghost use Rattle.lane_int.specs.Lists.{zip3};
ghost use Rattle.region_mem.specs.Memory.{Memory};
ghost use Rattle.rv_decode.specs.Needs.{needs_of_move};
ghost use Rattle.scalar_core.specs.Hart.{advanced};
ghost use Rattle.vector_core.specs.Arithmetic.{arith_of};
ghost use Rattle.vector_core.specs.Computed.{exact};
ghost use Rattle.vector_core.specs.Shapes.{CopyShape, IsShaped, MergeShape};
ghost use Rattle.vector_core.specs.Moves.{chosen, from_scalar_of, move_step, to_scalar_of};
ghost use Rattle.vector_core.specs.Setup.{IsReady};

use crate::elements::{VectorElement, low_bits};
use crate::fold_elements::sign_extended;
use crate::operands::{read_bits, read_body, read_second, write_results};
use crate::setup::Setup;
use crate::shapes::of_shape;
use crate::singles::write_first;
use crate::state::VectorState;
use rv_decode::{Eew, Reg, VArith, VMove, Width};
use scalar_core::Scalar;
use vreg_groups::{MOST_ELEMENTS, VregFile, whole_count};

/// vd is b where the bit of v0 is 1, and vs2 elsewhere.
#[tactic(auto, using(crate::proofs::Numbers::choose_numbers), unfolding(rv_decode::specs::Needs::needs_of_arith, crate::specs::Moves::merge_of, crate::specs::Arithmetic::arith_of))]
pub fn merge<E: VectorElement, const VLENB: usize>(
    registers: &mut VregFile<VLENB>,
    scalar: &Scalar,
    setup: &Setup,
    insn: &VArith,
    a: &mut [E],
    c: &mut [E],
)
    requires shape { IsShaped VLENB setup.now E.sew insn.now MergeShape }
    requires a_len { length a.old ≡ setup.now.vl }
    requires c_len { length c.old ≡ setup.now.vl }
    ensures { arith_of VLENB setup.now scalar.now insn.now registers.old ≡ exact registers.new }
{
    of_shape!(VArith::Merge(vd, vs2, b) = insn);
    let destination = setup.group(*vd, Eew::Same);
    let mut bits = [false; MOST_ELEMENTS];
    let mask = &mut bits[..setup.vl];
    read_body(registers, setup, *vs2, a);
    read_second(registers, scalar, setup, *b, c);
    read_bits(registers, setup, Reg::new(0), mask);
    choose_each(a, c, mask);
    write_results(registers, setup, &destination, false, a);
}

/// `b`'s element where the bit is 1, over `values`.
fn choose_each<E: VectorElement>(values: &mut [E], b: &[E], bits: &[bool])
    requires b_len { length b.now ≡ length values.old }
    requires bits_len { length bits.now ≡ length values.old }
    ensures { values.new ≡ zip3 chosen values.old b.now bits.now }
{
    for i in 0..values.len() {
        values[i] = choose(values[i], b[i], bits[i]);
    }
}

fn choose<E: VectorElement>(a: E, b: E, bit: bool) -> E
    ensures { result ≡ chosen a b bit }
{
    if bit { b } else { a }
}

/// vd is b.
#[tactic(auto, unfolding(rv_decode::specs::Needs::needs_of_arith, crate::specs::Moves::copy_of, crate::specs::Arithmetic::arith_of))]
pub fn copy<E: VectorElement, const VLENB: usize>(
    registers: &mut VregFile<VLENB>,
    scalar: &Scalar,
    setup: &Setup,
    insn: &VArith,
    c: &mut [E],
)
    requires shape { IsShaped VLENB setup.now E.sew insn.now CopyShape }
    requires c_len { length c.old ≡ setup.now.vl }
    ensures { arith_of VLENB setup.now scalar.now insn.now registers.old ≡ exact registers.new }
{
    of_shape!(VArith::Copy(vd, b) = insn);
    let destination = setup.group(*vd, Eew::Same);
    read_second(registers, scalar, setup, *b, c);
    write_results(registers, setup, &destination, false, c);
}

/// Element 0 of vs2, sign-extended.
#[tactic(auto, unfolding(crate::specs::Moves::to_scalar_of))]
fn to_scalar<const VLENB: usize>(registers: &VregFile<VLENB>, setup: &Setup, vs2: Reg) -> u32
    ensures { result ≡ to_scalar_of VLENB setup.now vs2 registers.now }
{
    let sew = setup.vtype.sew;
    match sew {
        Width::W8 => sign_extended(registers.first_element::<u8>(vs2)),
        Width::W16 => sign_extended(registers.first_element::<u16>(vs2)),
        Width::W32 => sign_extended(registers.first_element::<u32>(vs2)),
    }
}

/// Element 0 of vd is the low SEW bits of x[rs1].
#[tactic(auto, unfolding(crate::specs::Moves::from_scalar_of))]
fn from_scalar<const VLENB: usize>(
    registers: &mut VregFile<VLENB>,
    scalar: &Scalar,
    setup: &Setup,
    vd: Reg,
    rs1: Reg,
)
    ensures { registers.new ≡ from_scalar_of VLENB setup.now scalar.now vd rs1 registers.old }
{
    let x = scalar.reg(rs1);
    let sew = setup.vtype.sew;
    match sew {
        Width::W8 => write_first(registers, setup, vd, low_bits::<u8>(x)),
        Width::W16 => write_first(registers, setup, vd, low_bits::<u16>(x)),
        Width::W32 => write_first(registers, setup, vd, low_bits::<u32>(x)),
    }
}

/// The step of a move between an element and an x register, or of whole registers, but for pc.
#[tactic(auto, unfolding(rv_decode::specs::Needs::needs_of_move, vreg_groups::specs::Legality::count_of, crate::specs::Moves::move_step))]
pub fn apply_move<const VLENB: usize>(
    vectors: &mut VectorState<VLENB>,
    scalar: &mut Scalar,
    setup: &Setup,
    insn: &VMove,
)
    requires { IsReady VLENB setup.now (needs_of_move insn.now) }
    ensures { (m : Memory) → move_step VLENB setup.now insn.now scalar.old vectors.old m
        ≡ Ok (advanced scalar.new, vectors.new, m) }
{
    let registers = &mut vectors.registers;
    match insn {
        VMove::ToScalar { rd, vs2 } => {
            scalar.set_reg(*rd, to_scalar(registers, setup, *vs2));
        }
        VMove::FromScalar { vd, rs1 } => from_scalar(registers, scalar, setup, *vd, *rs1),
        VMove::Whole { count, vd, vs2 } => {
            registers.copy_registers(*vd, *vs2, whole_count(*count));
        }
    }
}
