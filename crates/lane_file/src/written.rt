//! An operation on the body of a group, and what becomes of the tail.
ghost use Rattle.std.specs.Prelude.{◌≡◌, ℕ, ◌+◌, ◌<◌, ◌≤◌, true, slice_index};
ghost use Rattle.lane_int.specs.Lists.{zip3};
ghost use Rattle.rv_decode.specs.Instructions.{bytes_of_width};
ghost use Rattle.rv_decode.specs.declared.extents.Eew.TheVariants.{Same};
ghost use Rattle.vreg_groups.specs.Elements.{active_of, elements_of};
ghost use Rattle.vreg_groups.specs.Group.{IsGroupInside, IsSize, written};
ghost use Rattle.vreg_groups.specs.Setup.{IsSetup};
ghost use Rattle.lane_file.specs.InPlace.{IsSecondInside, IsSecondWithin, are_apart};
ghost use Rattle.lane_file.specs.InPlace.{all_written, is_free, is_second_apart};
ghost use Rattle.lane_file.specs.InPlace.{second_list, second_of};

use crate::byte_lane::ByteLane;
use crate::chunks::body;
use crate::known::KnownChunks;
use crate::second::{Second, place_of};
use rv_decode::{Eew, Reg};
use vreg_groups::{Group, Policy, Setup, VregFile};

/// Writes the results of the body, and the tail. Where vl is 0 nothing is written.
pub(crate) fn write_body<E: ByteLane, K: KnownChunks<VLENB>, const VLENB: usize>(
    registers: &mut VregFile<VLENB>,
    setup: &Setup,
    op: K,
    vd: Reg,
    vs2: Reg,
    b: Second<E>,
    masked: bool,
)
    requires setup { IsSetup VLENB setup.now }
    requires size { E.Lane.size ≡ bytes_of_width setup.now.vtype.sew }
    requires vd_inside { IsGroupInside setup.now.vtype vd Same }
    requires vs2_inside { IsGroupInside setup.now.vtype vs2 Same }
    requires b_inside { IsSecondInside setup.now.vtype b }
    requires call { K.Kernel.has_call op ≡ true }
    requires free { is_free setup.now vd vs2 b masked ≡ true }
    ensures { registers.new ≡ all_written VLENB setup.now (K.Kernel.answer op E.Lane.width) vd vs2
        (second_of VLENB E.Lane.number setup.now b registers.old) masked registers.old }
{
    let group = setup.group::<VLENB>(vd, Eew::Same);
    if setup.vl != 0 {
        write(registers, &group, op, vd, vs2, b, masked, setup.policy());
    }
}

/// Writes the results, and the tail.
fn write<E: ByteLane, K: KnownChunks<VLENB>, const VLENB: usize>(
    registers: &mut VregFile<VLENB>,
    group: &Group<VLENB>,
    op: K,
    vd: Reg,
    vs2: Reg,
    b: Second<E>,
    masked: bool,
    policy: Policy,
)
    requires call { K.Kernel.has_call op ≡ true }
    requires first { vd ≡ group.now.first }
    requires size { E.Lane.size ≡ group.now.bytes }
    requires sizes { IsSize E.Lane.size }
    requires vs2_inside { vs2 + group.now.count ≤ 32 }
    requires b_inside { IsSecondWithin group.now.count b }
    requires vs2_apart { are_apart group.now.count vd vs2 ≡ true }
    requires b_apart { is_second_apart group.now.count vd b ≡ true }
    requires mask_stays { masked ≡ true → 0 < vd }
    ensures { registers.new ≡ written VLENB group.now policy
        (zip3 (K.Kernel.answer op E.Lane.width)
        (elements_of VLENB group.now.bytes vs2 group.now.vl registers.old)
        (second_list VLENB group.now.bytes E.Lane.number group.now.vl b registers.old)
        (elements_of VLENB group.now.bytes vd group.now.vl registers.old))
        (active_of VLENB masked group.now.vl registers.old) registers.old }
{
    let room = group.count() * VLENB;
    let n = E::size() * group.vl();
    let d = place_of(vd, VLENB);
    body(
        registers,
        op,
        d,
        place_of(vs2, VLENB),
        b,
        n,
        masked,
        policy.inactive,
    );
    registers.fill(d + n, room - n, policy.tail);
    are_bytes(registers.group(Reg::new(0), 32));
}

/// Each is below 256.
fn are_bytes(bytes: &[u8])
    ensures { (k : ℕ) → slice_index bytes.now k < 256 }
{
    let _ = bytes;
}
