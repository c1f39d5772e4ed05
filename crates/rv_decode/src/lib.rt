//! The instructions of RV32IM and of the vector extension for integers, and the table of the words that encode them.
#![tactic(auto)]

ghost use Rattle.std.specs.Prelude.{◌≡◌, Some, IfSome, option_to_list};
ghost use Rattle.rv_decode.specs.Rows.{meanings};
ghost use Rattle.rv_decode.specs.Decode.{table, meaning_of, scalar_meanings};

mod access_words;
mod arith_words;
mod element_words;
mod extents;
mod instructions;
pub mod laws;
mod opi_words;
mod opm_words;
mod scalar_words;
mod system_words;
mod vector_words;
mod word;

use access_words::{decode_vector_load, decode_vector_store};
pub use extents::{Eew, Extent, Operand, Operands, Sharing, needs};
pub use instructions::{
    Addressing, CarryOp, CarryOutOp, ClipOp, CompareOp, Condition, Count, CsrAction, CsrInsn,
    CsrName, CsrSource, Direction, FirstOp, FixedOp, FoldOp, Fraction, ImmediateOp, Insn, IntOp,
    LoadKind, LogicOp, MultiplyAddOp, NarrowOp, Offset, Reg, RegisterOp, ScalarInsn, ShiftOp,
    Source, VArith, VMask, VMem, VMove, VPerm, VReduce, VSet, WideOp, WidenMultiplyAddOp, WidenOp,
    Width,
};
use scalar_words::{
    decode_auipc, decode_branch, decode_fence, decode_immediate, decode_jal, decode_jalr,
    decode_load, decode_lui, decode_register, decode_store,
};
use system_words::decode_system;
use vector_words::decode_vector;
use word::bits;

/// The instruction that `word` encodes, or `None` for a word that encodes none.
///
/// The table of words is that of the RISC-V Unprivileged ISA ("RV32/64G Instruction Set Listings") and of the "V"
/// extension 1.0 ("Vector Instruction Listing"), as far as this crate has instructions for them.
#[tactic(auto, unfolding(crate::specs::Decode::meaning_of, crate::specs::Decode::table, crate::specs::Decode::scalar_meanings, crate::specs::Decode::is_scalar_opcode))]
pub fn decode(word: u32) -> Option<Insn>
    ensures meaning { result ≡ meaning_of word }
    ensures unique { option_to_list result ≡ meanings table word }
{
    match bits(word, 0, 7) {
        0x07 => decode_vector_load(word),
        0x0f => decode_fence(word),
        0x27 => decode_vector_store(word),
        0x57 => decode_vector(word),
        0x73 => decode_system(word),
        _ => decode_scalar(word),
    }
}

/// The vector load or store that `word` encodes, or `None` for all other words: again for callers that do these apart.
#[inline(always)]
#[tactic(auto, unfolding(crate::specs::Decode::meaning_of, crate::specs::Decode::table))]
pub fn decode_access(word: u32) -> Option<VMem>
    ensures meaning { IfSome result (λ access. meaning_of word ≡ Some (Insn.VMem access)) }
{
    let insn = match bits(word, 0, 7) {
        0x07 => decode_vector_load(word),
        0x27 => decode_vector_store(word),
        _ => None,
    };
    match insn {
        Some(Insn::VMem(access)) => Some(access),
        Some(Insn::Scalar(_) | Insn::Csr(_) | Insn::VSet(_) | crate::vector_arithmetic!()) | None =>
            None,
    }
}

/// The same for the words of the opcodes of RV32I and M but those of fence and SYSTEM, and `None` for all others: what a
/// run does most, for callers that do these apart.
#[inline(always)]
#[tactic(auto, unfolding(crate::specs::Decode::meaning_of, crate::specs::Decode::table, crate::specs::Decode::scalar_meanings, crate::specs::Decode::is_scalar_opcode))]
pub fn decode_scalar(word: u32) -> Option<Insn>
    ensures unique { option_to_list result ≡ scalar_meanings word }
    ensures meaning { IfSome result (λ insn. meaning_of word ≡ Some insn) }
{
    match bits(word, 0, 7) {
        0x03 => decode_load(word),
        0x13 => decode_immediate(word),
        0x17 => decode_auipc(word),
        0x23 => decode_store(word),
        0x33 => decode_register(word),
        0x37 => decode_lui(word),
        0x63 => decode_branch(word),
        0x67 => decode_jalr(word),
        0x6f => decode_jal(word),
        _ => None,
    }
}
