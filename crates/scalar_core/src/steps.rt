//! One step of the scalar half of a hart.

ghost use Rattle.std.specs.Prelude.{◌<◌, ◌^◌};
ghost use Rattle.region_mem.specs.Faults.{Steps};
ghost use Rattle.scalar_core.specs.Hart.{IsHart};
ghost use Rattle.scalar_core.specs.Ops.{insn_of};
ghost use Rattle.scalar_core.specs.Step.{rv32im_step, scalar_step};

use crate::computations::{auipc, immediate, put, register, shift_immediate};
use crate::csrs::step_csr;
use crate::hart::{EXIT, Scalar};
use crate::jumps::{branch, jal, jalr};
use crate::op::{Op, OpKind};
use crate::transfers::{load, store};
use region_mem::{Fault, Regions};
use rv_decode::{
    Condition, ImmediateOp, Insn, LoadKind, RegisterOp, ShiftOp, Width, vector_arithmetic,
};
use std::alloc::Allocator;
use vreg_groups::Vconfig;

/// One step by an instruction of the classes Scalar and Csr, as the meaning of the word at pc. One of
/// a vector class does nothing here.
///
/// A taken jump or branch to a target that is not a multiple of four is `JumpMisaligned` with the
/// target; a load or store with a byte that isn't permitted is `LoadFault` or `StoreFault` with its
/// address. A step that faults changes nothing. `config` gives what vl and vtype read as, and `vlenb`
/// what vlenb reads as, VLEN / 8 ("RV32I Base Integer Instruction Set", "M Extension for Integer
/// Multiplication and Division", "Zicsr Extension for Control and Status Register Instructions").
#[inline(always)]
#[tactic(auto, unfolding(crate::specs::Step::scalar_step))]
pub fn step_scalar<A: Allocator>(
    scalar: &mut Scalar,
    insn: Insn,
    memory: &mut Regions<A>,
    config: &Vconfig,
    vlenb: usize,
) -> Result<(), Fault>
    requires { vlenb < 2 ^ 32 }
    ensures step { Steps (scalar_step vlenb insn config.now scalar.old memory.old)
        (scalar.old, memory.old) (scalar.new, memory.new) result }
    ensures state { IsHart scalar.new }
{
    let outcome = match insn {
        Insn::Scalar(insn) => step_op(scalar, &Op::of(insn), memory),
        Insn::Csr(insn) => {
            step_csr(scalar, insn, config, vlenb);
            Ok(())
        }
        Insn::VSet(_) | Insn::VMem(_) | vector_arithmetic!() => Ok(()),
    };
    scalar.state_law();
    outcome
}

/// The step of an instruction of RV32I or M in its flat form.
///
/// A taken jump or branch to a target that is not a multiple of four is `JumpMisaligned` with the
/// target; a load or store with a byte that isn't permitted is `LoadFault` or `StoreFault` with its
/// address. A step that faults changes nothing ("RV32I Base Integer Instruction Set", "M Extension
/// for Integer Multiplication and Division").
#[inline(always)]
#[tactic(auto, unfolding(crate::specs::Ops::insn_of, crate::specs::Step::rv32im_step, crate::specs::Step::beside))]
pub fn step_op<A: Allocator>(
    scalar: &mut Scalar,
    op: &Op,
    memory: &mut Regions<A>,
) -> Result<(), Fault>
    ensures { Steps (rv32im_step (insn_of op.now) scalar.old memory.old)
        (scalar.old, memory.old) (scalar.new, memory.new) result }
{
    let (rd, rs1, rs2, imm) = (op.rd, op.rs1, op.rs2, op.imm);
    match op.kind {
        OpKind::Jal => return jal(scalar, rd, imm),
        OpKind::Jalr => return jalr(scalar, rd, rs1, imm),
        OpKind::Beq => return branch(scalar, Condition::Eq, rs1, rs2, imm),
        OpKind::Bne => return branch(scalar, Condition::Ne, rs1, rs2, imm),
        OpKind::Blt => return branch(scalar, Condition::Lt, rs1, rs2, imm),
        OpKind::Bge => return branch(scalar, Condition::Ge, rs1, rs2, imm),
        OpKind::Bltu => return branch(scalar, Condition::Ltu, rs1, rs2, imm),
        OpKind::Bgeu => return branch(scalar, Condition::Geu, rs1, rs2, imm),
        OpKind::Lb => return load(scalar, LoadKind::Byte, rd, rs1, imm, memory),
        OpKind::Lh => return load(scalar, LoadKind::Half, rd, rs1, imm, memory),
        OpKind::Lw => return load(scalar, LoadKind::Word, rd, rs1, imm, memory),
        OpKind::Lbu => return load(scalar, LoadKind::ByteUnsigned, rd, rs1, imm, memory),
        OpKind::Lhu => return load(scalar, LoadKind::HalfUnsigned, rd, rs1, imm, memory),
        OpKind::Sb => return store(scalar, Width::W8, rs1, rs2, imm, memory),
        OpKind::Sh => return store(scalar, Width::W16, rs1, rs2, imm, memory),
        OpKind::Sw => return store(scalar, Width::W32, rs1, rs2, imm, memory),
        OpKind::Lui => put(scalar, rd, imm.cast_unsigned()),
        OpKind::Auipc => auipc(scalar, rd, imm.cast_unsigned()),
        OpKind::Addi => immediate(scalar, ImmediateOp::Addi, rd, rs1, imm),
        OpKind::Slti => immediate(scalar, ImmediateOp::Slti, rd, rs1, imm),
        OpKind::Sltiu => immediate(scalar, ImmediateOp::Sltiu, rd, rs1, imm),
        OpKind::Xori => immediate(scalar, ImmediateOp::Xori, rd, rs1, imm),
        OpKind::Ori => immediate(scalar, ImmediateOp::Ori, rd, rs1, imm),
        OpKind::Andi => immediate(scalar, ImmediateOp::Andi, rd, rs1, imm),
        OpKind::Slli => shift_immediate(scalar, ShiftOp::Slli, rd, rs1, imm.cast_unsigned()),
        OpKind::Srli => shift_immediate(scalar, ShiftOp::Srli, rd, rs1, imm.cast_unsigned()),
        OpKind::Srai => shift_immediate(scalar, ShiftOp::Srai, rd, rs1, imm.cast_unsigned()),
        OpKind::Add => register(scalar, RegisterOp::Add, rd, rs1, rs2),
        OpKind::Sub => register(scalar, RegisterOp::Sub, rd, rs1, rs2),
        OpKind::Sll => register(scalar, RegisterOp::Sll, rd, rs1, rs2),
        OpKind::Slt => register(scalar, RegisterOp::Slt, rd, rs1, rs2),
        OpKind::Sltu => register(scalar, RegisterOp::Sltu, rd, rs1, rs2),
        OpKind::Xor => register(scalar, RegisterOp::Xor, rd, rs1, rs2),
        OpKind::Srl => register(scalar, RegisterOp::Srl, rd, rs1, rs2),
        OpKind::Sra => register(scalar, RegisterOp::Sra, rd, rs1, rs2),
        OpKind::Or => register(scalar, RegisterOp::Or, rd, rs1, rs2),
        OpKind::And => register(scalar, RegisterOp::And, rd, rs1, rs2),
        OpKind::Mul => register(scalar, RegisterOp::Mul, rd, rs1, rs2),
        OpKind::Mulh => register(scalar, RegisterOp::Mulh, rd, rs1, rs2),
        OpKind::Mulhsu => register(scalar, RegisterOp::Mulhsu, rd, rs1, rs2),
        OpKind::Mulhu => register(scalar, RegisterOp::Mulhu, rd, rs1, rs2),
        OpKind::Div => register(scalar, RegisterOp::Div, rd, rs1, rs2),
        OpKind::Divu => register(scalar, RegisterOp::Divu, rd, rs1, rs2),
        OpKind::Rem => register(scalar, RegisterOp::Rem, rd, rs1, rs2),
        OpKind::Remu => register(scalar, RegisterOp::Remu, rd, rs1, rs2),
        OpKind::Fence => scalar.advance(),
        OpKind::Ecall => scalar.set_pc(EXIT),
    }
    Ok(())
}
