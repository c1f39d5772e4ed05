//! The operations of the chunk calls, by the names of the instructions that use them. Those of the kernels are rv_decode's.

ghost use Rattle.std.specs.Prelude.{◌≡◌, true};
ghost use Rattle.lane_int.specs.Chunks.{chunk_op, has_chunk};

use rv_decode::{CompareOp, IntOp, MultiplyAddOp};

/// An operation of the chunk calls: on vs2's lane, on b and on vd's old lane.
#[derive(Clone, Copy, PartialEq, Eq)]
pub enum Op {
    /// vadd
    Add,
    /// vsub: vs2 - b
    Sub,
    /// vrsub: b - vs2
    Rsub,
    /// vminu
    Minu,
    /// vmin
    Min,
    /// vmaxu
    Maxu,
    /// vmax
    Max,
    /// vand
    And,
    /// vor
    Or,
    /// vxor
    Xor,
    /// vsll
    Sll,
    /// vsrl
    Srl,
    /// vsra
    Sra,
    /// vmul
    Mul,
    /// vmseq to vmsgt: all ones where it holds, else 0
    Compare(CompareOp),
    /// vmacc to vnmsub
    MultiplyAdd(MultiplyAddOp),
}

/// Whether a kernel's operation is one of the chunk calls'.
pub fn has_chunk(op: IntOp) -> bool
    ensures { result ≡ has_chunk op }
{
    match op {
        IntOp::Add
        | IntOp::Sub
        | IntOp::Rsub
        | IntOp::Minu
        | IntOp::Min
        | IntOp::Maxu
        | IntOp::Max
        | IntOp::And
        | IntOp::Or
        | IntOp::Xor
        | IntOp::Sll
        | IntOp::Srl
        | IntOp::Sra
        | IntOp::Mul => true,
        IntOp::Mulhu
        | IntOp::Mulhsu
        | IntOp::Mulh
        | IntOp::Divu
        | IntOp::Div
        | IntOp::Remu
        | IntOp::Rem => false,
    }
}

/// The chunk calls' operation that is the kernels'.
#[inline(always)]
pub(crate) fn chunk_op(op: IntOp) -> Op
    requires { has_chunk op ≡ true }
    ensures { result ≡ chunk_op op }
{
    match op {
        IntOp::Add => Op::Add,
        IntOp::Sub => Op::Sub,
        IntOp::Rsub => Op::Rsub,
        IntOp::Minu => Op::Minu,
        IntOp::Min => Op::Min,
        IntOp::Maxu => Op::Maxu,
        IntOp::Max => Op::Max,
        IntOp::And => Op::And,
        IntOp::Or => Op::Or,
        IntOp::Xor => Op::Xor,
        IntOp::Sll => Op::Sll,
        IntOp::Srl => Op::Srl,
        IntOp::Sra => Op::Sra,
        _ => Op::Mul,
    }
}
