//! The chunks that every operation has a loop of its own for: those all of whose elements are active.
ghost use Rattle.std.specs.Prelude.{◌≡◌, ℕ, ◌+◌, ◌*◌, ◌≤◌, ◌⊎◌, true, false};
ghost use Rattle.lane_file.specs.InPlace.{Apart, HasRoom, IsDone, IsKept, IsSecondApart};
ghost use Rattle.lane_file.specs.InPlace.{target};

use crate::byte_lane::ByteLane;
use crate::chunks::whole_chunks;
use crate::kernel::Kernel;
use crate::second::Second;
use lane_fixed::Op;
use rv_decode::{IntOp, MultiplyAddOp};
use vreg_groups::{Agnostic, VregFile};

/// Operations that each have a loop of their own.
pub(crate) trait KnownChunks<const VLENB: usize>: Kernel {
    ghost use Rattle.std.specs.Prelude.{◌≡◌, ℕ, ◌+◌, ◌*◌, ◌≤◌, ◌⊎◌, true, false};
    ghost use Rattle.lane_file.specs.InPlace.{Apart, HasRoom, IsDone, IsKept, IsSecondApart};
    ghost use Rattle.lane_file.specs.InPlace.{target};

    /// The chunks all of whose bytes are of the body and whose elements are all active.
    fn known_chunks<E: ByteLane>(
        self,
        registers: &mut VregFile<VLENB>,
        d: usize,
        a: usize,
        b: Second<E>,
        count: usize,
        inactive: Agnostic,
    )
        requires call { Self.Kernel.has_call self ≡ true }
        requires size { (E.Lane.size ≡ 1) ⊎ (E.Lane.size ≡ 2) ⊎ (E.Lane.size ≡ 4) }
        requires vlenb { VLENB ≤ 64 }
        requires d_room { d + 16 * count ≤ 32 * VLENB }
        requires a_room { a + 16 * count ≤ 32 * VLENB }
        requires b_room { HasRoom VLENB b (16 * count) }
        requires bits_room { 16 * count ≤ 8 * VLENB }
        requires a_apart { Apart d a (16 * count) }
        requires b_apart { IsSecondApart VLENB d b (16 * count) }
        ensures done { IsDone E.Lane.size d
            (target VLENB E.Lane.size E.Lane.number (Self.Kernel.answer self E.Lane.width) d a b
            false inactive registers.old) (16 * count) registers.new }
        ensures kept { IsKept d (16 * count) registers.old registers.new };
}

/// The loop of one operation.
#[inline(always)]
fn each_chunk<E: ByteLane, K: Kernel, const VLENB: usize>(
    registers: &mut VregFile<VLENB>,
    op: K,
    d: usize,
    a: usize,
    b: Second<E>,
    count: usize,
    inactive: Agnostic,
)
    requires call { K.Kernel.has_call op ≡ true }
    requires size { (E.Lane.size ≡ 1) ⊎ (E.Lane.size ≡ 2) ⊎ (E.Lane.size ≡ 4) }
    requires vlenb { VLENB ≤ 64 }
    requires d_room { d + 16 * count ≤ 32 * VLENB }
    requires a_room { a + 16 * count ≤ 32 * VLENB }
    requires b_room { HasRoom VLENB b (16 * count) }
    requires bits_room { 16 * count ≤ 8 * VLENB }
    requires a_apart { Apart d a (16 * count) }
    requires b_apart { IsSecondApart VLENB d b (16 * count) }
    ensures done { IsDone E.Lane.size d
        (target VLENB E.Lane.size E.Lane.number (K.Kernel.answer op E.Lane.width) d a b false
        inactive registers.old) (16 * count) registers.new }
    ensures kept { IsKept d (16 * count) registers.old registers.new }
{
    whole_chunks(registers, op, d, a, b, count, false, inactive);
}

impl<const VLENB: usize> KnownChunks<VLENB> for IntOp {
    #[inline(always)]
    fn known_chunks<E: ByteLane>(
        self,
        registers: &mut VregFile<VLENB>,
        d: usize,
        a: usize,
        b: Second<E>,
        count: usize,
        inactive: Agnostic,
    ) {
        match self {
            Self::Add => each_chunk(registers, Self::Add, d, a, b, count, inactive),
            Self::Sub => each_chunk(registers, Self::Sub, d, a, b, count, inactive),
            Self::Rsub => each_chunk(registers, Self::Rsub, d, a, b, count, inactive),
            Self::Minu => each_chunk(registers, Self::Minu, d, a, b, count, inactive),
            Self::Min => each_chunk(registers, Self::Min, d, a, b, count, inactive),
            Self::Maxu => each_chunk(registers, Self::Maxu, d, a, b, count, inactive),
            Self::Max => each_chunk(registers, Self::Max, d, a, b, count, inactive),
            Self::And => each_chunk(registers, Self::And, d, a, b, count, inactive),
            Self::Or => each_chunk(registers, Self::Or, d, a, b, count, inactive),
            Self::Xor => each_chunk(registers, Self::Xor, d, a, b, count, inactive),
            Self::Sll => each_chunk(registers, Self::Sll, d, a, b, count, inactive),
            Self::Srl => each_chunk(registers, Self::Srl, d, a, b, count, inactive),
            Self::Sra => each_chunk(registers, Self::Sra, d, a, b, count, inactive),
            Self::Mul => each_chunk(registers, Self::Mul, d, a, b, count, inactive),
            Self::Mulhu
            | Self::Mulhsu
            | Self::Mulh
            | Self::Divu
            | Self::Div
            | Self::Remu
            | Self::Rem => each_chunk(registers, self, d, a, b, count, inactive),
        }
    }
}

impl<const VLENB: usize> KnownChunks<VLENB> for MultiplyAddOp {
    #[inline(always)]
    fn known_chunks<E: ByteLane>(
        self,
        registers: &mut VregFile<VLENB>,
        d: usize,
        a: usize,
        b: Second<E>,
        count: usize,
        inactive: Agnostic,
    ) {
        match self {
            Self::Macc => each_chunk(registers, Self::Macc, d, a, b, count, inactive),
            Self::Nmsac => each_chunk(registers, Self::Nmsac, d, a, b, count, inactive),
            Self::Madd => each_chunk(registers, Self::Madd, d, a, b, count, inactive),
            Self::Nmsub => each_chunk(registers, Self::Nmsub, d, a, b, count, inactive),
        }
    }
}

impl<const VLENB: usize> KnownChunks<VLENB> for Op {
    #[inline(always)]
    fn known_chunks<E: ByteLane>(
        self,
        registers: &mut VregFile<VLENB>,
        d: usize,
        a: usize,
        b: Second<E>,
        count: usize,
        inactive: Agnostic,
    ) {
        match self {
            Self::Saddu => each_chunk(registers, Self::Saddu, d, a, b, count, inactive),
            Self::Sadd => each_chunk(registers, Self::Sadd, d, a, b, count, inactive),
            Self::Ssubu => each_chunk(registers, Self::Ssubu, d, a, b, count, inactive),
            Self::Ssub => each_chunk(registers, Self::Ssub, d, a, b, count, inactive),
            Self::Aaddu(mode) => each_chunk(registers, Self::Aaddu(mode), d, a, b, count, inactive),
            Self::Aadd(mode) => each_chunk(registers, Self::Aadd(mode), d, a, b, count, inactive),
            Self::Asubu(mode) => each_chunk(registers, Self::Asubu(mode), d, a, b, count, inactive),
            Self::Asub(mode) => each_chunk(registers, Self::Asub(mode), d, a, b, count, inactive),
            Self::Ssrl(mode) => each_chunk(registers, Self::Ssrl(mode), d, a, b, count, inactive),
            Self::Ssra(mode) => each_chunk(registers, Self::Ssra(mode), d, a, b, count, inactive),
        }
    }
}
