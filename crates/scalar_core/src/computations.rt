//! Instructions that only put a number into their register and go on to the next word.

ghost use Rattle.std.specs.Prelude.{◌≡◌, ◌+◌, ◌%◌, ◌^◌};
ghost use Rattle.scalar_core.specs.Arithmetic.{immediate_result as immediate_result_of};
ghost use Rattle.scalar_core.specs.Arithmetic.{register_result as register_result_of};
ghost use Rattle.scalar_core.specs.Arithmetic.{shift_result as shift_result_of};
ghost use Rattle.scalar_core.specs.Hart.{put as put_of, reg_of};

use crate::arithmetic::{immediate_result, register_result, shift_result};
use crate::hart::Scalar;
use rv_decode::{ImmediateOp, Reg, RegisterOp, ShiftOp};

/// Puts a number into `rd`, and goes to the next word.
#[inline]
pub(crate) fn put(scalar: &mut Scalar, rd: Reg, value: u32)
    ensures { scalar.new ≡ put_of rd value scalar.old }
{
    scalar.set_reg(rd, value);
    scalar.advance();
}

/// auipc: pc and an immediate.
#[inline]
pub(crate) fn auipc(scalar: &mut Scalar, rd: Reg, imm: u32)
    ensures { scalar.new ≡ put_of rd ((scalar.old.pc + imm) % 2 ^ 32) scalar.old }
{
    let value = scalar.pc().wrapping_add(imm);
    put(scalar, rd, value);
}

/// An instruction on a register and an immediate.
#[inline]
pub(crate) fn immediate(scalar: &mut Scalar, op: ImmediateOp, rd: Reg, rs1: Reg, imm: i32)
    ensures { scalar.new ≡ put_of rd
        (immediate_result_of op (reg_of rs1 scalar.old) imm) scalar.old }
{
    let value = immediate_result(op, scalar.reg(rs1), imm);
    put(scalar, rd, value);
}

/// A shift by an amount that stands in the instruction.
#[inline]
pub(crate) fn shift_immediate(scalar: &mut Scalar, op: ShiftOp, rd: Reg, rs1: Reg, amount: u32)
    ensures { scalar.new ≡ put_of rd
        (shift_result_of op (reg_of rs1 scalar.old) amount) scalar.old }
{
    let value = shift_result(op, scalar.reg(rs1), amount);
    put(scalar, rd, value);
}

/// An instruction on two registers.
#[inline]
pub(crate) fn register(scalar: &mut Scalar, op: RegisterOp, rd: Reg, rs1: Reg, rs2: Reg)
    ensures { scalar.new ≡ put_of rd
        (register_result_of op (reg_of rs1 scalar.old) (reg_of rs2 scalar.old)) scalar.old }
{
    let value = register_result(op, scalar.reg(rs1), scalar.reg(rs2));
    put(scalar, rd, value);
}
