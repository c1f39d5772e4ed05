//! What the instructions of RV32I and M compute from the numbers of their operands.

ghost use Rattle.std.specs.Prelude.{◌≡◌, ◌<◌, ◌≤◌, ◌*ℤ◌, ◌^◌, pos, unsigned_abs};
ghost use Rattle.scalar_core.specs.Arithmetic.{immediate_result as immediate_result_of};
ghost use Rattle.scalar_core.specs.Arithmetic.{register_result as register_result_of};
ghost use Rattle.scalar_core.specs.Arithmetic.{is_taken as is_taken_of};
ghost use Rattle.scalar_core.specs.Arithmetic.{shift_result as shift_result_of};
ghost use Rattle.scalar_core.specs.Arithmetic.{quotient as quotient_of, remainder as remainder_of};
ghost use Rattle.scalar_core.specs.Arithmetic.{unsigned_quotient as unsigned_quotient_of};
ghost use Rattle.scalar_core.specs.Arithmetic.{unsigned_remainder as unsigned_remainder_of};
ghost use Rattle.scalar_core.specs.Arithmetic.{upper_half as upper_half_of};

use rv_decode::{Condition, ImmediateOp, RegisterOp, ShiftOp};

/// The result of an instruction on two registers, `a` of rs1 and `b` of rs2 ("Integer
/// Register-Register Operations", "Multiplication Operations" and "Division Operations").
#[inline]
#[tactic(auto, unfolding(crate::specs::Arithmetic::register_result))]
pub(crate) fn register_result(op: RegisterOp, a: u32, b: u32) -> u32
    ensures { result ≡ register_result_of op a b }
{
    match op {
        RegisterOp::Add => a.wrapping_add(b),
        RegisterOp::Sub => a.wrapping_sub(b),
        RegisterOp::Sll => a.wrapping_shl(b),
        RegisterOp::Slt => u32::from(a.cast_signed() < b.cast_signed()),
        RegisterOp::Sltu => u32::from(a < b),
        RegisterOp::Xor => a ^ b,
        RegisterOp::Srl => a.wrapping_shr(b),
        RegisterOp::Sra => a.cast_signed().wrapping_shr(b).cast_unsigned(),
        RegisterOp::Or => a | b,
        RegisterOp::And => a & b,
        RegisterOp::Mul => a.wrapping_mul(b),
        RegisterOp::Mulh => upper_half(i64::from(a.cast_signed()), i64::from(b.cast_signed())),
        RegisterOp::Mulhsu => upper_half(i64::from(a.cast_signed()), i64::from(b)),
        RegisterOp::Mulhu => unsigned_upper_half(a, b),
        RegisterOp::Div => quotient(a, b),
        RegisterOp::Divu => unsigned_quotient(a, b),
        RegisterOp::Rem => remainder(a, b),
        RegisterOp::Remu => unsigned_remainder(a, b),
    }
}

/// The upper 32 bits of the product of a signed number of 32 bits and one of 32 bits, signed or
/// not.
#[inline]
fn upper_half(a: i64, b: i64) -> u32
    requires a_fits { unsigned_abs a ≤ 2 ^ 31 }
    requires b_fits { unsigned_abs b < 2 ^ 32 }
    ensures { result ≡ upper_half_of (a *ℤ b) }
{
    let product = a * b;
    ((product >> 32) as i32).cast_unsigned()
}

/// The upper 32 bits of the product of two unsigned numbers.
#[inline]
fn unsigned_upper_half(a: u32, b: u32) -> u32
    ensures { result ≡ upper_half_of (pos a *ℤ pos b) }
{
    let product = u64::from(a) * u64::from(b);
    (product >> 32) as u32
}

/// The signed quotient; all ones where the divisor is 0.
#[inline]
fn quotient(a: u32, b: u32) -> u32
    ensures { result ≡ quotient_of a b }
{
    if b == 0 {
        u32::MAX
    } else {
        a.cast_signed()
            .wrapping_div(b.cast_signed())
            .cast_unsigned()
    }
}

/// The signed remainder; the dividend where the divisor is 0.
#[inline]
fn remainder(a: u32, b: u32) -> u32
    ensures { result ≡ remainder_of a b }
{
    if b == 0 {
        a
    } else {
        a.cast_signed()
            .wrapping_rem(b.cast_signed())
            .cast_unsigned()
    }
}

/// The unsigned quotient; all ones where the divisor is 0.
#[inline]
fn unsigned_quotient(a: u32, b: u32) -> u32
    ensures { result ≡ unsigned_quotient_of a b }
{
    if b == 0 { u32::MAX } else { a / b }
}

/// The unsigned remainder; the dividend where the divisor is 0.
#[inline]
fn unsigned_remainder(a: u32, b: u32) -> u32
    ensures { result ≡ unsigned_remainder_of a b }
{
    if b == 0 { a } else { a % b }
}

/// The result of an instruction on a register and a sign-extended immediate ("Integer
/// Register-Immediate Instructions").
#[inline]
#[tactic(auto, unfolding(crate::specs::Arithmetic::immediate_result))]
pub(crate) fn immediate_result(op: ImmediateOp, a: u32, imm: i32) -> u32
    ensures { result ≡ immediate_result_of op a imm }
{
    let b = imm.cast_unsigned();
    match op {
        ImmediateOp::Addi => register_result(RegisterOp::Add, a, b),
        ImmediateOp::Slti => register_result(RegisterOp::Slt, a, b),
        ImmediateOp::Sltiu => register_result(RegisterOp::Sltu, a, b),
        ImmediateOp::Xori => register_result(RegisterOp::Xor, a, b),
        ImmediateOp::Ori => register_result(RegisterOp::Or, a, b),
        ImmediateOp::Andi => register_result(RegisterOp::And, a, b),
    }
}

/// The result of a shift by an amount that stands in the instruction.
#[inline]
#[tactic(auto, unfolding(crate::specs::Arithmetic::shift_result))]
pub(crate) fn shift_result(op: ShiftOp, a: u32, amount: u32) -> u32
    ensures { result ≡ shift_result_of op a amount }
{
    match op {
        ShiftOp::Slli => register_result(RegisterOp::Sll, a, amount),
        ShiftOp::Srli => register_result(RegisterOp::Srl, a, amount),
        ShiftOp::Srai => register_result(RegisterOp::Sra, a, amount),
    }
}

/// Whether a branch on `a` of rs1 and `b` of rs2 is taken ("Conditional Branches").
#[inline]
#[tactic(auto, unfolding(crate::specs::Arithmetic::is_taken))]
pub(crate) fn is_taken(condition: Condition, a: u32, b: u32) -> bool
    ensures { result ≡ is_taken_of condition a b }
{
    match condition {
        Condition::Eq => a == b,
        Condition::Ne => a != b,
        Condition::Lt => a.cast_signed() < b.cast_signed(),
        Condition::Ge => a.cast_signed() >= b.cast_signed(),
        Condition::Ltu => a < b,
        Condition::Geu => a >= b,
    }
}
