//! Instructions that compute, by their shapes.

ghost use Rattle.std.specs.Prelude.{◌≡◌, true};
ghost use Rattle.rv_decode.specs.Needs.{needs_of_arith};
ghost use Rattle.vector_core.specs.Arithmetic.{arith_of, is_same_width};
ghost use Rattle.vector_core.specs.Rooms.{IsRoom};
ghost use Rattle.vector_core.specs.Setup.{IsReady};

use crate::doubles::doubles;
use crate::elements::{VectorElement, zero};
use crate::fixed_point::fixed;
use crate::in_place::{fixed_in_place, int_in_place, multiply_add_in_place};
use crate::integer::{carry, carry_out, compare, int, multiply_add};
use crate::moves::{copy, merge};
use crate::rooms::{body_law, on_sew, with_room};
use crate::setup::Setup;
use crate::widening::extend;
use rv_decode::{VArith, Width};
use scalar_core::Scalar;
use vreg_groups::VregFile;

/// What an instruction that computes does to the registers. Tells whether an active element saturated.
pub fn arith<const VLENB: usize>(
    registers: &mut VregFile<VLENB>,
    scalar: &Scalar,
    setup: &Setup,
    insn: &VArith,
) -> bool
    requires { IsReady VLENB setup.now (needs_of_arith insn.now) }
    ensures { arith_of VLENB setup.now scalar.now insn.now registers.old
        ≡ record { registers = registers.new; saturated = result } }
{
    on_sew!(setup, arith_elements(registers, scalar, setup, insn))
}

/// The same on elements of one width.
#[tactic(auto, unfolding(crate::specs::Arithmetic::arith_of, crate::specs::Arithmetic::is_same_width, crate::specs::Arithmetic::has_doubles))]
fn arith_elements<E: VectorElement, const MOST: usize, const VLENB: usize>(
    registers: &mut VregFile<VLENB>,
    scalar: &Scalar,
    setup: &Setup,
    insn: &VArith,
) -> bool
    requires room { IsRoom VLENB E.row E.SIZE MOST }
    requires width { E.sew ≡ setup.now.vtype.sew }
    requires ready { IsReady VLENB setup.now (needs_of_arith insn.now) }
    ensures { arith_of VLENB setup.now scalar.now insn.now registers.old
        ≡ record { registers = registers.new; saturated = result } }
{
    match insn {
        VArith::Extend { of, .. } => extend(registers, scalar, setup, insn, *of),
        VArith::Widen { .. }
        | VArith::Wide { .. }
        | VArith::WidenMultiplyAdd { .. }
        | VArith::Narrow { .. }
        | VArith::Clip { .. } => return doubles(registers, scalar, setup, insn),
        VArith::Int { .. } => {
            if !int_in_place::<E, VLENB>(registers, scalar, setup, insn) {
                return arith_same::<E, MOST, VLENB>(registers, scalar, setup, insn);
            }
        }
        VArith::MultiplyAdd { .. } => {
            if !multiply_add_in_place::<E, VLENB>(registers, scalar, setup, insn) {
                return arith_same::<E, MOST, VLENB>(registers, scalar, setup, insn);
            }
        }
        VArith::Carry { .. }
        | VArith::CarryOut { .. }
        | VArith::Merge { .. }
        | VArith::Copy { .. }
        | VArith::Compare { .. } => {
            return arith_same::<E, MOST, VLENB>(registers, scalar, setup, insn);
        }
        VArith::Fixed { .. } => {
            return match fixed_in_place::<E, VLENB>(registers, scalar, setup, insn) {
                Some(saturated) => saturated,
                None => arith_same::<E, MOST, VLENB>(registers, scalar, setup, insn),
            };
        }
    }
    false
}

/// The same where all elements are of SEW: what is read of two operands has a room each. It is apart, so that what needs
/// no such rooms makes none.
#[inline(never)]
#[tactic(auto, unfolding(crate::specs::Arithmetic::arith_of, crate::specs::Arithmetic::is_same_width, crate::specs::Arithmetic::has_doubles))]
fn arith_same<E: VectorElement, const MOST: usize, const VLENB: usize>(
    registers: &mut VregFile<VLENB>,
    scalar: &Scalar,
    setup: &Setup,
    insn: &VArith,
) -> bool
    requires same { is_same_width insn.now ≡ true }
    requires room { IsRoom VLENB E.row E.SIZE MOST }
    requires width { E.sew ≡ setup.now.vtype.sew }
    requires ready { IsReady VLENB setup.now (needs_of_arith insn.now) }
    ensures { arith_of VLENB setup.now scalar.now insn.now registers.old
        ≡ record { registers = registers.new; saturated = result } }
{
    body_law::<VLENB>(setup);
    let vl = setup.vl;
    let mut a = [zero::<E>(); MOST];
    let mut c = [zero::<E>(); MOST];
    let (a, c) = (&mut a[..vl], &mut c[..vl]);
    match insn {
        VArith::Int { .. } => int(registers, scalar, setup, insn, a, c),
        VArith::MultiplyAdd { .. } => {
            multiply_add::<E, MOST, VLENB>(registers, scalar, setup, insn, a, c);
        }
        VArith::Carry { .. } => carry(registers, scalar, setup, insn, a, c),
        VArith::CarryOut { .. } => carry_out(registers, scalar, setup, insn, a, c),
        VArith::Merge { .. } => merge(registers, scalar, setup, insn, a, c),
        VArith::Copy { .. } => copy(registers, scalar, setup, insn, c),
        VArith::Compare { .. } => compare(registers, scalar, setup, insn, a, c),
        VArith::Fixed { .. } => return fixed(registers, scalar, setup, insn, a, c),
        VArith::Extend { .. }
        | VArith::Widen { .. }
        | VArith::Wide { .. }
        | VArith::WidenMultiplyAdd { .. }
        | VArith::Narrow { .. }
        | VArith::Clip { .. } => unreachable!(),
    }
    false
}
