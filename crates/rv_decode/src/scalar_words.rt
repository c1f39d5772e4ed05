//! The scalar words of RV32I and M, a function for each opcode.

ghost use Rattle.std.specs.Prelude.{◌≡◌, option_to_list};
ghost use Rattle.rv_decode.specs.Rows.{meanings_by_groups, meanings_by_rows};
ghost use Rattle.rv_decode.specs.Scalar.{
  branch as branch_of,
  load as load_of,
  store as store_of,
  immediate as immediate_of,
  shift as shift_of,
  register as register_of,
};
ghost use Rattle.rv_decode.specs.Scalar.{lui_groups, auipc_groups, jal_groups, jalr_groups};
ghost use Rattle.rv_decode.specs.Scalar.{branch_groups, load_groups};
ghost use Rattle.rv_decode.specs.Scalar.{store_groups, immediate_groups, base_rows, multiply_rows};
ghost use Rattle.rv_decode.specs.Scalar.{register_groups, fence_groups};

use crate::word::{
    bits, immediate_b, immediate_i, immediate_j, immediate_s, immediate_u, register,
};
use crate::{Condition, ImmediateOp, Insn, LoadKind, RegisterOp, ScalarInsn, ShiftOp, Width};

/// Opcode 37.
#[inline(always)]
#[tactic(auto, unfolding(crate::specs::Scalar::lui_groups))]
pub(crate) fn decode_lui(word: u32) -> Option<Insn>
    ensures { option_to_list result ≡ meanings_by_groups lui_groups word }
{
    Some(Insn::Scalar(ScalarInsn::Lui {
        rd: register(word, 7),
        imm: immediate_u(word),
    }))
}

/// Opcode 17.
#[inline(always)]
#[tactic(auto, unfolding(crate::specs::Scalar::auipc_groups))]
pub(crate) fn decode_auipc(word: u32) -> Option<Insn>
    ensures { option_to_list result ≡ meanings_by_groups auipc_groups word }
{
    Some(Insn::Scalar(ScalarInsn::Auipc {
        rd: register(word, 7),
        imm: immediate_u(word),
    }))
}

/// Opcode 6f.
#[inline(always)]
#[tactic(auto, unfolding(crate::specs::Scalar::jal_groups))]
pub(crate) fn decode_jal(word: u32) -> Option<Insn>
    ensures { option_to_list result ≡ meanings_by_groups jal_groups word }
{
    Some(Insn::Scalar(ScalarInsn::Jal {
        rd: register(word, 7),
        offset: immediate_j(word),
    }))
}

/// Opcode 67.
#[inline(always)]
#[tactic(auto, unfolding(crate::specs::Scalar::jalr_groups))]
pub(crate) fn decode_jalr(word: u32) -> Option<Insn>
    ensures { option_to_list result ≡ meanings_by_groups jalr_groups word }
{
    match bits(word, 12, 3) {
        0 => Some(Insn::Scalar(ScalarInsn::Jalr {
            rd: register(word, 7),
            rs1: register(word, 15),
            offset: immediate_i(word),
        })),
        _ => None,
    }
}

#[inline(always)]
fn branch(word: u32, condition: Condition) -> Insn
    ensures { result ≡ branch_of condition word }
{
    Insn::Scalar(ScalarInsn::Branch {
        condition,
        rs1: register(word, 15),
        rs2: register(word, 20),
        offset: immediate_b(word),
    })
}

/// Opcode 63.
#[inline(always)]
#[tactic(auto, unfolding(crate::specs::Scalar::branch_groups))]
pub(crate) fn decode_branch(word: u32) -> Option<Insn>
    ensures { option_to_list result ≡ meanings_by_groups branch_groups word }
{
    match bits(word, 12, 3) {
        0 => Some(branch(word, Condition::Eq)),
        1 => Some(branch(word, Condition::Ne)),
        4 => Some(branch(word, Condition::Lt)),
        5 => Some(branch(word, Condition::Ge)),
        6 => Some(branch(word, Condition::Ltu)),
        7 => Some(branch(word, Condition::Geu)),
        _ => None,
    }
}

#[inline(always)]
fn load(word: u32, kind: LoadKind) -> Insn
    ensures { result ≡ load_of kind word }
{
    Insn::Scalar(ScalarInsn::Load {
        kind,
        rd: register(word, 7),
        rs1: register(word, 15),
        offset: immediate_i(word),
    })
}

/// Opcode 03.
#[inline(always)]
#[tactic(auto, unfolding(crate::specs::Scalar::load_groups))]
pub(crate) fn decode_load(word: u32) -> Option<Insn>
    ensures { option_to_list result ≡ meanings_by_groups load_groups word }
{
    match bits(word, 12, 3) {
        0 => Some(load(word, LoadKind::Byte)),
        1 => Some(load(word, LoadKind::Half)),
        2 => Some(load(word, LoadKind::Word)),
        4 => Some(load(word, LoadKind::ByteUnsigned)),
        5 => Some(load(word, LoadKind::HalfUnsigned)),
        _ => None,
    }
}

#[inline(always)]
fn store(word: u32, size: Width) -> Insn
    ensures { result ≡ store_of size word }
{
    Insn::Scalar(ScalarInsn::Store {
        size,
        rs1: register(word, 15),
        rs2: register(word, 20),
        offset: immediate_s(word),
    })
}

/// Opcode 23.
#[inline(always)]
#[tactic(auto, unfolding(crate::specs::Scalar::store_groups))]
pub(crate) fn decode_store(word: u32) -> Option<Insn>
    ensures { option_to_list result ≡ meanings_by_groups store_groups word }
{
    match bits(word, 12, 3) {
        0 => Some(store(word, Width::W8)),
        1 => Some(store(word, Width::W16)),
        2 => Some(store(word, Width::W32)),
        _ => None,
    }
}

#[inline(always)]
fn immediate(word: u32, op: ImmediateOp) -> Insn
    ensures { result ≡ immediate_of op word }
{
    Insn::Scalar(ScalarInsn::Immediate {
        op,
        rd: register(word, 7),
        rs1: register(word, 15),
        imm: immediate_i(word),
    })
}

#[inline(always)]
fn shift(word: u32, op: ShiftOp) -> Insn
    ensures { result ≡ shift_of op word }
{
    Insn::Scalar(ScalarInsn::ShiftImmediate {
        op,
        rd: register(word, 7),
        rs1: register(word, 15),
        amount: bits(word, 20, 5),
    })
}

/// Opcode 13: a register and an immediate.
#[inline(always)]
#[tactic(auto, unfolding(crate::specs::Scalar::immediate_groups))]
pub(crate) fn decode_immediate(word: u32) -> Option<Insn>
    ensures { option_to_list result ≡ meanings_by_groups immediate_groups word }
{
    match bits(word, 12, 3) {
        0 => Some(immediate(word, ImmediateOp::Addi)),
        1 => match bits(word, 25, 7) {
            0x00 => Some(shift(word, ShiftOp::Slli)),
            _ => None,
        },
        2 => Some(immediate(word, ImmediateOp::Slti)),
        3 => Some(immediate(word, ImmediateOp::Sltiu)),
        4 => Some(immediate(word, ImmediateOp::Xori)),
        5 => match bits(word, 25, 7) {
            0x00 => Some(shift(word, ShiftOp::Srli)),
            0x20 => Some(shift(word, ShiftOp::Srai)),
            _ => None,
        },
        6 => Some(immediate(word, ImmediateOp::Ori)),
        7 => Some(immediate(word, ImmediateOp::Andi)),
        _ => None,
    }
}

#[inline(always)]
fn two_registers(word: u32, op: RegisterOp) -> Insn
    ensures { result ≡ register_of op word }
{
    Insn::Scalar(ScalarInsn::Register {
        op,
        rd: register(word, 7),
        rs1: register(word, 15),
        rs2: register(word, 20),
    })
}

/// Opcode 33 with f7 00.
#[inline(always)]
#[tactic(auto, unfolding(crate::specs::Scalar::base_rows))]
fn decode_base(word: u32) -> Option<Insn>
    ensures { option_to_list result ≡ meanings_by_rows base_rows word }
{
    match bits(word, 12, 3) {
        0 => Some(two_registers(word, RegisterOp::Add)),
        1 => Some(two_registers(word, RegisterOp::Sll)),
        2 => Some(two_registers(word, RegisterOp::Slt)),
        3 => Some(two_registers(word, RegisterOp::Sltu)),
        4 => Some(two_registers(word, RegisterOp::Xor)),
        5 => Some(two_registers(word, RegisterOp::Srl)),
        6 => Some(two_registers(word, RegisterOp::Or)),
        7 => Some(two_registers(word, RegisterOp::And)),
        _ => None,
    }
}

/// Opcode 33 with f7 01: the M extension.
#[inline(always)]
#[tactic(auto, unfolding(crate::specs::Scalar::multiply_rows))]
fn decode_multiply(word: u32) -> Option<Insn>
    ensures { option_to_list result ≡ meanings_by_rows multiply_rows word }
{
    match bits(word, 12, 3) {
        0 => Some(two_registers(word, RegisterOp::Mul)),
        1 => Some(two_registers(word, RegisterOp::Mulh)),
        2 => Some(two_registers(word, RegisterOp::Mulhsu)),
        3 => Some(two_registers(word, RegisterOp::Mulhu)),
        4 => Some(two_registers(word, RegisterOp::Div)),
        5 => Some(two_registers(word, RegisterOp::Divu)),
        6 => Some(two_registers(word, RegisterOp::Rem)),
        7 => Some(two_registers(word, RegisterOp::Remu)),
        _ => None,
    }
}

/// Opcode 33: two registers.
#[inline(always)]
#[tactic(auto, unfolding(crate::specs::Scalar::register_groups))]
pub(crate) fn decode_register(word: u32) -> Option<Insn>
    ensures { option_to_list result ≡ meanings_by_groups register_groups word }
{
    match bits(word, 25, 7) {
        0x00 => decode_base(word),
        0x20 => match bits(word, 12, 3) {
            0 => Some(two_registers(word, RegisterOp::Sub)),
            5 => Some(two_registers(word, RegisterOp::Sra)),
            _ => None,
        },
        0x01 => decode_multiply(word),
        _ => None,
    }
}

/// Opcode 0f: fence.
#[tactic(auto, unfolding(crate::specs::Scalar::fence_groups))]
pub(crate) fn decode_fence(word: u32) -> Option<Insn>
    ensures { option_to_list result ≡ meanings_by_groups fence_groups word }
{
    match bits(word, 12, 3) {
        0 => Some(Insn::Scalar(ScalarInsn::Fence)),
        _ => None,
    }
}
