//! Fixed-point operations on operands of one width.
ghost use Rattle.std.specs.Prelude.{◌≡◌, IfSome, None, is_some, true};
ghost use Rattle.lane_fixed.specs.Chunks.{lane_result, lane_saturates};
ghost use Rattle.lane_fixed.specs.FixedPoint.{any_active};
ghost use Rattle.rv_decode.specs.Instructions.{bytes_of_width};
ghost use Rattle.rv_decode.specs.declared.extents.Eew.TheVariants.{Same};
ghost use Rattle.vreg_groups.specs.Elements.{active_of};
ghost use Rattle.vreg_groups.specs.Group.{IsGroupInside, body_of};
ghost use Rattle.vreg_groups.specs.Setup.{IsSetup, group_at};
ghost use Rattle.lane_file.specs.InPlace.{IsSecondInside, all_written, fixed_saturated};
ghost use Rattle.lane_file.specs.InPlace.{fixed_written, is_fixed_done, is_free, second_of};

use crate::apart::is_free;
use crate::byte_lane::ByteLane;
use crate::saturation::any_saturated;
use crate::second::Second;
use crate::written::write_body;
use lane_fixed::{Op, RoundingMode, chunk_op};
use rv_decode::{Eew, FixedOp, Reg};
use vreg_groups::{Setup, VregFile};

/// Makes vd a fixed-point operation on vs2 and `b`, of elements of SEW, and tells whether an active element saturated. None
/// where it was not done, and the registers stay as they are: vsmul has no chunk call, a source may share a part of vd's
/// registers, or a masked operation would write v0 ("Vector Fixed-Point Arithmetic Instructions", "Vector Fixed-Point
/// Saturation Flag vxsat", "Vector Masking").
pub fn fixed<E: ByteLane, const VLENB: usize>(
    registers: &mut VregFile<VLENB>,
    setup: &Setup,
    op: FixedOp,
    mode: RoundingMode,
    vd: Reg,
    vs2: Reg,
    b: Second<E>,
    masked: bool,
) -> Option<bool>
    requires setup { IsSetup VLENB setup.now }
    requires size { E.Lane.size ≡ bytes_of_width setup.now.vtype.sew }
    requires vd_inside { IsGroupInside setup.now.vtype vd Same }
    requires vs2_inside { IsGroupInside setup.now.vtype vs2 Same }
    requires b_inside { IsSecondInside setup.now.vtype b }
    ensures answer { is_some result ≡ is_fixed_done setup.now op mode vd vs2 b masked }
    ensures done { IfSome result (λ saturated. registers.new
        ≡ fixed_written VLENB setup.now E.Lane.width op mode vd vs2
        (second_of VLENB E.Lane.number setup.now b registers.old) masked registers.old) }
    ensures saturated { IfSome result (λ saturated. saturated
        ≡ fixed_saturated VLENB setup.now E.Lane.width op mode vs2
        (second_of VLENB E.Lane.number setup.now b registers.old) masked registers.old) }
    ensures kept { result ≡ None → registers.new ≡ registers.old }
{
    if !is_free::<E, VLENB>(setup, vd, vs2, b, masked) {
        return None;
    }
    match chunk_op(op, mode) {
        Some(op) => Some(write_fixed(registers, setup, op, vd, vs2, b, masked)),
        None => None,
    }
}

/// The same of an operation that a chunk call has.
fn write_fixed<E: ByteLane, const VLENB: usize>(
    registers: &mut VregFile<VLENB>,
    setup: &Setup,
    op: Op,
    vd: Reg,
    vs2: Reg,
    b: Second<E>,
    masked: bool,
) -> bool
    requires setup { IsSetup VLENB setup.now }
    requires size { E.Lane.size ≡ bytes_of_width setup.now.vtype.sew }
    requires vd_inside { IsGroupInside setup.now.vtype vd Same }
    requires vs2_inside { IsGroupInside setup.now.vtype vs2 Same }
    requires b_inside { IsSecondInside setup.now.vtype b }
    requires free { is_free setup.now vd vs2 b masked ≡ true }
    ensures written { registers.new
        ≡ all_written VLENB setup.now (λ a b d. lane_result op E.Lane.width a b) vd vs2
        (second_of VLENB E.Lane.number setup.now b registers.old) masked registers.old }
    ensures saturated { result ≡ any_active (lane_saturates op E.Lane.width)
        (body_of VLENB (group_at setup.now vs2 Same) registers.old)
        (second_of VLENB E.Lane.number setup.now b registers.old)
        (active_of VLENB masked setup.now.vl registers.old) }
{
    let group = setup.group::<VLENB>(vs2, Eew::Same);
    let saturated = any_saturated(registers, &group, op, vs2, b, masked);
    write_body(registers, setup, op, vd, vs2, b, masked);
    saturated
}
