//! The rounding modes, and the operations of the chunk calls, by the names of the instructions that use them. Those of the
//! kernels are rv_decode's.

ghost use Rattle.std.specs.Prelude.{◌≡◌};
ghost use Rattle.lane_fixed.specs.Chunks.{chunk_op};

use rv_decode::FixedOp;

/// How the bits that a result has no room for are rounded off: the values of vxrm ("Vector Fixed-Point Rounding Mode
/// Register vxrm").
#[derive(Clone, Copy, PartialEq, Eq)]
pub enum RoundingMode {
    /// rnu, 0: to the nearest, halves up.
    NearestUp,
    /// rne, 1: to the nearest, halves to even.
    NearestEven,
    /// rdn, 2: down.
    Down,
    /// rod, 3: to odd where bits other than 0 are lost.
    Odd,
}

/// An operation of the chunk calls, with vxrm where it rounds.
#[derive(Clone, Copy, PartialEq, Eq)]
pub enum Op {
    /// vsaddu
    Saddu,
    /// vsadd
    Sadd,
    /// vssubu: vs2 - b
    Ssubu,
    /// vssub: vs2 - b
    Ssub,
    /// vaaddu
    Aaddu(RoundingMode),
    /// vaadd
    Aadd(RoundingMode),
    /// vasubu: vs2 - b
    Asubu(RoundingMode),
    /// vasub: vs2 - b
    Asub(RoundingMode),
    /// vssrl
    Ssrl(RoundingMode),
    /// vssra
    Ssra(RoundingMode),
}

/// The chunk calls' operation that is the kernels': None for vsmul ("Vector Fixed-Point Arithmetic Instructions").
#[inline(always)]
pub fn chunk_op(op: FixedOp, mode: RoundingMode) -> Option<Op>
    ensures { result ≡ chunk_op op mode }
{
    match op {
        FixedOp::Saddu => Some(Op::Saddu),
        FixedOp::Sadd => Some(Op::Sadd),
        FixedOp::Ssubu => Some(Op::Ssubu),
        FixedOp::Ssub => Some(Op::Ssub),
        FixedOp::Aaddu => Some(Op::Aaddu(mode)),
        FixedOp::Aadd => Some(Op::Aadd(mode)),
        FixedOp::Asubu => Some(Op::Asubu(mode)),
        FixedOp::Asub => Some(Op::Asub(mode)),
        FixedOp::Smul => None,
        FixedOp::Ssrl => Some(Op::Ssrl(mode)),
        FixedOp::Ssra => Some(Op::Ssra(mode)),
    }
}
