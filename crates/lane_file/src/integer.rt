//! Integer operations on operands of one width.
ghost use Rattle.std.specs.Prelude.{◌≡◌, true, false};
ghost use Rattle.rv_decode.specs.Instructions.{bytes_of_width};
ghost use Rattle.rv_decode.specs.declared.extents.Eew.TheVariants.{Same};
ghost use Rattle.vreg_groups.specs.Group.{IsGroupInside};
ghost use Rattle.vreg_groups.specs.Setup.{IsSetup};
ghost use Rattle.lane_file.specs.InPlace.{IsSecondInside, int_written, is_done, is_free};
ghost use Rattle.lane_file.specs.InPlace.{multiply_add_written, second_of};

use crate::apart::is_free;
use crate::byte_lane::ByteLane;
use crate::second::Second;
use crate::written::write_body;
use lane_int::has_chunk;
use rv_decode::{IntOp, MultiplyAddOp, Reg};
use vreg_groups::{Setup, VregFile};

/// Makes vd an operation on vs2 and `b`, of elements of SEW, and tells whether it did: not where the operation has no
/// chunk call, where a source shares a part of vd's registers, or where a masked one would write v0. The registers
/// stay then as they are ("Vector Integer Arithmetic Instructions", "Vector Masking").
pub fn int<E: ByteLane, const VLENB: usize>(
    registers: &mut VregFile<VLENB>,
    setup: &Setup,
    op: IntOp,
    vd: Reg,
    vs2: Reg,
    b: Second<E>,
    masked: bool,
) -> bool
    requires setup { IsSetup VLENB setup.now }
    requires size { E.Lane.size ≡ bytes_of_width setup.now.vtype.sew }
    requires vd_inside { IsGroupInside setup.now.vtype vd Same }
    requires vs2_inside { IsGroupInside setup.now.vtype vs2 Same }
    requires b_inside { IsSecondInside setup.now.vtype b }
    ensures answer { result ≡ is_done setup.now op vd vs2 b masked }
    ensures done { result ≡ true → registers.new
        ≡ int_written VLENB setup.now E.Lane.width op vd vs2
        (second_of VLENB E.Lane.number setup.now b registers.old) masked registers.old }
    ensures kept { result ≡ false → registers.new ≡ registers.old }
{
    if !has_chunk(op) || !is_free::<E, VLENB>(setup, vd, vs2, b, masked) {
        return false;
    }
    write_body(registers, setup, op, vd, vs2, b, masked);
    true
}

/// Makes vd a product and a sum of `b`, of vs2 and of itself, of elements of SEW, and tells whether it did: not where a
/// source shares a part of vd's registers, or where a masked operation would write v0. The registers stay then as they are
/// ("Vector Single-Width Integer Multiply-Add Instructions", "Vector Masking").
pub fn multiply_add<E: ByteLane, const VLENB: usize>(
    registers: &mut VregFile<VLENB>,
    setup: &Setup,
    op: MultiplyAddOp,
    vd: Reg,
    vs2: Reg,
    b: Second<E>,
    masked: bool,
) -> bool
    requires setup { IsSetup VLENB setup.now }
    requires size { E.Lane.size ≡ bytes_of_width setup.now.vtype.sew }
    requires vd_inside { IsGroupInside setup.now.vtype vd Same }
    requires vs2_inside { IsGroupInside setup.now.vtype vs2 Same }
    requires b_inside { IsSecondInside setup.now.vtype b }
    ensures answer { result ≡ is_free setup.now vd vs2 b masked }
    ensures done { result ≡ true → registers.new
        ≡ multiply_add_written VLENB setup.now E.Lane.width op vd vs2
        (second_of VLENB E.Lane.number setup.now b registers.old) masked registers.old }
    ensures kept { result ≡ false → registers.new ≡ registers.old }
{
    if !is_free::<E, VLENB>(setup, vd, vs2, b, masked) {
        return false;
    }
    write_body(registers, setup, op, vd, vs2, b, masked);
    true
}
