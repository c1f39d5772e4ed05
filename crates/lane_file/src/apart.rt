//! Whether an operation can be done where the registers lie.
ghost use Rattle.std.specs.Prelude.{◌≡◌, ◌≤◌, ◌==◌, ◌&&◌, not};
ghost use Rattle.rv_decode.specs.declared.extents.Eew.TheVariants.{Same};
ghost use Rattle.vreg_groups.specs.Group.{IsGroupInside};
ghost use Rattle.vreg_groups.specs.Setup.{IsSetup};
ghost use Rattle.lane_file.specs.InPlace.{are_apart, is_free, is_second_apart};

use crate::second::Second;
use rv_decode::{Eew, Reg};
use vreg_groups::Setup;

/// Whether no source shares a part of vd's registers, and v0 is not written while it is the mask.
pub(crate) fn is_free<E: Copy, const VLENB: usize>(
    setup: &Setup,
    vd: Reg,
    vs2: Reg,
    b: Second<E>,
    masked: bool,
) -> bool
    requires setup { IsSetup VLENB setup.now }
    requires vd_inside { IsGroupInside setup.now.vtype vd Same }
    ensures { result ≡ is_free setup.now vd vs2 b masked }
{
    let count = setup.group::<VLENB>(vd, Eew::Same).count();
    are_apart(count, vd, vs2) && is_second_apart(count, vd, b) && !(masked && vd.number() == 0)
}

/// The same of the second source.
fn is_second_apart<E: Copy>(count: usize, vd: Reg, b: Second<E>) -> bool
    requires { count ≤ 8 }
    ensures { result ≡ is_second_apart count vd b }
{
    match b {
        Second::Group(vs1) => are_apart(count, vd, vs1),
        Second::Splat(_) => true,
    }
}

/// Whether two groups are the same, or have no register in common.
fn are_apart(count: usize, vd: Reg, source: Reg) -> bool
    requires { count ≤ 8 }
    ensures { result ≡ are_apart count vd source }
{
    let d = usize::from(vd.number());
    let a = usize::from(source.number());
    a == d || a + count <= d || d + count <= a
}
