//! Instructions that move elements among places: each resolves its operands, reads them, moves and writes. `a` and `c` have
//! room for the body, and `all` for VLMAX elements.

ghost use Rattle.std.specs.Prelude.{◌≡◌, ◌≤◌, ◌*◌, ◌<◌, ◌^◌, IfSome, length, map};
ghost use Rattle.rv_decode.specs.Needs.{needs_of_perm, second};
ghost use Rattle.rv_decode.specs.declared.extents.Eew.TheVariants.{Same};
ghost use Rattle.vreg_groups.specs.Group.{IsGroupInside, body_of};
ghost use Rattle.vreg_groups.specs.Legality.{IsInside};
ghost use Rattle.rv_decode.specs.Instructions.{bytes_of_width};
ghost use Rattle.vreg_groups.specs.VectorType.{vlmax_of};
ghost use Rattle.vreg_groups.specs.declared.vector_type.TheConstants.{MOST_ELEMENTS};
ghost use Rattle.vector_core.specs.Permutations.{active_from, all_at, distance_of, indices_of};
ghost use Rattle.vector_core.specs.Permutations.{perm_of, results_written_from};
ghost use Rattle.vector_core.specs.Rooms.{IsRoom};
ghost use Rattle.vector_core.specs.Shapes.{CompressShape, Gather16Shape, GatherShape};
ghost use Rattle.vector_core.specs.Shapes.{IsPermShaped, SlideDownShape, SlideOneDownShape};
ghost use Rattle.vector_core.specs.Shapes.{SlideOneUpShape, SlideUpShape};
ghost use Rattle.vector_core.specs.Setup.{IsReady, IsSetup};

use crate::elements::{VectorElement, low_bits, numbers_of, zero};
use crate::operands::{read_bits, read_body, write_results};
use crate::rooms::{body_law, on_sew, with_room};
use crate::setup::Setup;
use crate::shapes::of_shape;
use rv_decode::{Eew, Offset, Reg, Source, VPerm, Width};
use scalar_core::Scalar;
use vreg_groups::{Group, MOST_ELEMENTS, VregFile};

/// VLMAX.
#[tactic(auto, using(crate::proofs::Lengths::body_room))]
fn vlmax<const VLENB: usize>(setup: &Setup) -> usize
    requires { IsSetup VLENB setup.now }
    ensures meaning { result ≡ vlmax_of VLENB setup.now.vtype }
    ensures bytes { bytes_of_width setup.now.vtype.sew * result ≤ MOST_ELEMENTS }
    ensures room { bytes_of_width setup.now.vtype.sew * result ≤ 8 * VLENB }
{
    setup.vtype.vlmax(VLENB) as usize
}

/// Reads all elements, of SEW, of the group that begins at `first`.
fn read_all<E: VectorElement, const VLENB: usize>(
    registers: &VregFile<VLENB>,
    setup: &Setup,
    first: Reg,
    all: &mut [E],
)
    requires len { length all.old ≡ vlmax_of VLENB setup.now.vtype }
    requires width { E.sew ≡ setup.now.vtype.sew }
    requires setup { IsSetup VLENB setup.now }
    requires inside { IsGroupInside setup.now.vtype first Same }
    ensures { map E.Element.number all.new ≡ body_of VLENB (all_at VLENB setup.now first)
        registers.now }
{
    let group = Group::<VLENB>::new(&setup.vtype, all.len(), first, Eew::Same);
    group.read(registers, all);
}

/// How far a slide goes.
fn distance(offset: Offset, scalar: &Scalar) -> usize
    ensures meaning { result ≡ distance_of offset scalar.now }
    ensures bound { result < 2 ^ 32 }
{
    match offset {
        Offset::Scalar(rs1) => scalar.reg(rs1) as usize,
        Offset::Immediate(imm) => imm as usize,
    }
}

/// Makes elements below the offset active.
fn activate_below(distance: usize, active: &mut [bool])
    ensures { active.new ≡ active_from distance active.old }
{
    let below = distance.min(active.len());
    active[..below].fill(true);
}

/// Writes the body's results where those below the offset are old values.
#[tactic(auto, unfolding(crate::specs::Permutations::results_written_from))]
fn write_results_from<E: VectorElement, const VLENB: usize>(
    registers: &mut VregFile<VLENB>,
    setup: &Setup,
    group: &Group<VLENB>,
    distance: usize,
    masked: bool,
    results: &[E],
)
    requires size { E.SIZE ≡ group.now.bytes }
    requires setup { IsSetup VLENB setup.now }
    ensures { registers.new ≡ results_written_from VLENB setup.now group.now distance masked
        (map E.Element.number results.now) registers.old }
{
    if setup.vl != 0 {
        let mut bits = [false; MOST_ELEMENTS];
        let active = &mut bits[..setup.vl];
        registers.read_active(masked, active);
        activate_below(distance, active);
        group.write(registers, results, active, setup.policy());
    }
}

/// Element i of vd is element i - offset of vs2, from the offset on.
#[tactic(auto, using(crate::proofs::Moved::slid_up_numbers), unfolding(rv_decode::specs::Needs::needs_of_perm, crate::specs::Permutations::slide_up_of, crate::specs::Permutations::perm_of))]
fn slide_up<E: VectorElement, const VLENB: usize>(
    registers: &mut VregFile<VLENB>,
    scalar: &Scalar,
    setup: &Setup,
    insn: &VPerm,
    a: &mut [E],
    c: &mut [E],
)
    requires shape { IsPermShaped VLENB setup.now E.sew insn.now SlideUpShape }
    requires a_len { length a.old ≡ setup.now.vl }
    requires c_len { length c.old ≡ setup.now.vl }
    ensures { registers.new ≡ perm_of VLENB setup.now scalar.now insn.now registers.old }
{
    of_shape!(VPerm::SlideUp(vd, vs2, offset, masked) = insn);
    let destination = setup.group(*vd, Eew::Same);
    let distance = distance(*offset, scalar);
    read_body(registers, setup, *vs2, a);
    destination.read(registers, c);
    lane_masks::slide_up(distance, a, c);
    write_results_from(registers, setup, &destination, distance, *masked, c);
}

/// Element i of vd is element i + offset of vs2, and 0 where that is at or past VLMAX.
#[tactic(auto, using(crate::proofs::Moved::slid_down_numbers), unfolding(rv_decode::specs::Needs::needs_of_perm, crate::specs::Permutations::slide_down_of, crate::specs::Permutations::perm_of))]
fn slide_down<E: VectorElement, const VLENB: usize>(
    registers: &mut VregFile<VLENB>,
    scalar: &Scalar,
    setup: &Setup,
    insn: &VPerm,
    a: &mut [E],
    all: &mut [E],
)
    requires shape { IsPermShaped VLENB setup.now E.sew insn.now SlideDownShape }
    requires a_len { length a.old ≡ setup.now.vl }
    requires all_len { length all.old ≡ vlmax_of VLENB setup.now.vtype }
    ensures { registers.new ≡ perm_of VLENB setup.now scalar.now insn.now registers.old }
{
    of_shape!(VPerm::SlideDown(vd, vs2, offset, masked) = insn);
    let destination = setup.group(*vd, Eew::Same);
    read_all(registers, setup, *vs2, all);
    lane_masks::slide_down(distance(*offset, scalar), all, zero(), a);
    write_results(registers, setup, &destination, *masked, a);
}

/// x[rs1] comes in at element 0, and the others move up by one place.
#[tactic(auto, using(crate::proofs::Moved::slid_one_up_numbers), unfolding(rv_decode::specs::Needs::needs_of_perm, crate::specs::Permutations::slide_one_up_of, crate::specs::Permutations::perm_of))]
fn slide_one_up<E: VectorElement, const VLENB: usize>(
    registers: &mut VregFile<VLENB>,
    scalar: &Scalar,
    setup: &Setup,
    insn: &VPerm,
    a: &mut [E],
)
    requires shape { IsPermShaped VLENB setup.now E.sew insn.now SlideOneUpShape }
    requires a_len { length a.old ≡ setup.now.vl }
    ensures { registers.new ≡ perm_of VLENB setup.now scalar.now insn.now registers.old }
{
    of_shape!(VPerm::SlideOneUp(vd, vs2, rs1, masked) = insn);
    let destination = setup.group(*vd, Eew::Same);
    read_body(registers, setup, *vs2, a);
    lane_masks::slide_one_up(low_bits(scalar.reg(*rs1)), a);
    write_results(registers, setup, &destination, *masked, a);
}

/// x[rs1] comes in at element vl - 1, and the others move down by one place.
#[tactic(auto, using(crate::proofs::Moved::slid_one_down_numbers), unfolding(rv_decode::specs::Needs::needs_of_perm, crate::specs::Permutations::slide_one_down_of, crate::specs::Permutations::perm_of))]
fn slide_one_down<E: VectorElement, const VLENB: usize>(
    registers: &mut VregFile<VLENB>,
    scalar: &Scalar,
    setup: &Setup,
    insn: &VPerm,
    a: &mut [E],
)
    requires shape { IsPermShaped VLENB setup.now E.sew insn.now SlideOneDownShape }
    requires a_len { length a.old ≡ setup.now.vl }
    ensures { registers.new ≡ perm_of VLENB setup.now scalar.now insn.now registers.old }
{
    of_shape!(VPerm::SlideOneDown(vd, vs2, rs1, masked) = insn);
    let destination = setup.group(*vd, Eew::Same);
    read_body(registers, setup, *vs2, a);
    lane_masks::slide_one_down(low_bits(scalar.reg(*rs1)), a);
    write_results(registers, setup, &destination, *masked, a);
}

/// Reads the indices of a gather; `a` has room for those that are elements.
#[tactic(auto, unfolding(crate::specs::Permutations::indices_of))]
fn read_indices<E: VectorElement, const VLENB: usize>(
    registers: &VregFile<VLENB>,
    scalar: &Scalar,
    setup: &Setup,
    b: Source,
    a: &mut [E],
    indices: &mut [u32],
)
    requires a_len { length a.old ≡ setup.now.vl }
    requires len { length indices.old ≡ setup.now.vl }
    requires width { E.sew ≡ setup.now.vtype.sew }
    requires setup { IsSetup VLENB setup.now }
    requires inside { IfSome (second b) (IsInside setup.now.vtype) }
    ensures { indices.new ≡ indices_of VLENB setup.now scalar.now b registers.now }
{
    match b {
        Source::Vector(vs1) => {
            read_body(registers, setup, vs1, a);
            numbers_of(a, indices);
        }
        Source::Scalar(rs1) => indices.fill(scalar.reg(rs1)),
        Source::Immediate(imm) => indices.fill(imm.cast_unsigned()),
    }
}

/// Each element of vd is that of vs2 at its index, and 0 where that is at or past VLMAX.
#[tactic(auto, unfolding(rv_decode::specs::Needs::needs_of_perm))]
fn gather<E: VectorElement, const VLENB: usize>(
    registers: &mut VregFile<VLENB>,
    scalar: &Scalar,
    setup: &Setup,
    insn: &VPerm,
    a: &mut [E],
    all: &mut [E],
)
    requires shape { IsPermShaped VLENB setup.now E.sew insn.now GatherShape }
    requires a_len { length a.old ≡ setup.now.vl }
    requires all_len { length all.old ≡ vlmax_of VLENB setup.now.vtype }
    ensures { registers.new ≡ perm_of VLENB setup.now scalar.now insn.now registers.old }
{
    of_shape!(VPerm::Gather(vd, vs2, b, masked) = insn);
    let destination = setup.group(*vd, Eew::Same);
    let mut numbers = [0u32; MOST_ELEMENTS];
    let indices = &mut numbers[..setup.vl];
    read_indices(registers, scalar, setup, *b, a, indices);
    read_all(registers, setup, *vs2, all);
    lane_masks::gather(all, indices, zero(), a);
    write_results(registers, setup, &destination, *masked, a);
}

/// The same with indices of 16 bits.
#[tactic(auto, using(crate::proofs::Moved::gathered_numbers), unfolding(rv_decode::specs::Needs::needs_of_perm, crate::specs::Permutations::gather16_of, crate::specs::Permutations::perm_of))]
fn gather16<E: VectorElement, const VLENB: usize>(
    registers: &mut VregFile<VLENB>,
    scalar: &Scalar,
    setup: &Setup,
    insn: &VPerm,
    a: &mut [E],
    all: &mut [E],
)
    requires shape { IsPermShaped VLENB setup.now E.sew insn.now Gather16Shape }
    requires a_len { length a.old ≡ setup.now.vl }
    requires all_len { length all.old ≡ vlmax_of VLENB setup.now.vtype }
    ensures { registers.new ≡ perm_of VLENB setup.now scalar.now insn.now registers.old }
{
    of_shape!(VPerm::Gather16(vd, vs2, vs1, masked) = insn);
    let destination = setup.group(*vd, Eew::Same);
    let others = setup.group::<VLENB>(*vs1, Eew::Fixed(Width::W16));
    let mut halves = [0u16; MOST_ELEMENTS];
    let halves = &mut halves[..setup.vl];
    let mut numbers = [0u32; MOST_ELEMENTS];
    let numbers = &mut numbers[..setup.vl];
    others.read(registers, halves);
    numbers_of(halves, numbers);
    read_all(registers, setup, *vs2, all);
    lane_masks::gather(all, numbers, zero(), a);
    write_results(registers, setup, &destination, *masked, a);
}

/// The elements of vs2 whose bit of vs1 is set, packed; past them is the tail.
#[tactic(auto, using(crate::proofs::Moved::kept_numbers), unfolding(rv_decode::specs::Needs::needs_of_perm, crate::specs::Permutations::compress_of, crate::specs::Permutations::perm_of))]
fn compress<E: VectorElement, const VLENB: usize>(
    registers: &mut VregFile<VLENB>,
    scalar: &Scalar,
    setup: &Setup,
    insn: &VPerm,
    a: &mut [E],
)
    requires shape { IsPermShaped VLENB setup.now E.sew insn.now CompressShape }
    requires a_len { length a.old ≡ setup.now.vl }
    ensures { registers.new ≡ perm_of VLENB setup.now scalar.now insn.now registers.old }
{
    of_shape!(VPerm::Compress(vd, vs2, vs1) = insn);
    let destination = setup.group(*vd, Eew::Same);
    let mut bits = [false; MOST_ELEMENTS];
    let bits = &mut bits[..setup.vl];
    read_bits(registers, setup, *vs1, bits);
    read_body(registers, setup, *vs2, a);
    let count = lane_masks::compress(bits, a);
    write_results(registers, setup, &destination, false, &a[..count]);
}

/// What an instruction does to the registers, on elements of one width.
#[tactic(auto, unfolding(crate::specs::Permutations::perm_of))]
fn permute_elements<E: VectorElement, const MOST: usize, const VLENB: usize>(
    registers: &mut VregFile<VLENB>,
    scalar: &Scalar,
    setup: &Setup,
    insn: &VPerm,
)
    requires room { IsRoom VLENB E.row E.SIZE MOST }
    requires width { E.sew ≡ setup.now.vtype.sew }
    requires ready { IsReady VLENB setup.now (needs_of_perm insn.now) }
    ensures { registers.new ≡ perm_of VLENB setup.now scalar.now insn.now registers.old }
{
    body_law::<VLENB>(setup);
    let vl = setup.vl;
    let vlmax = vlmax::<VLENB>(setup);
    let mut a = [zero::<E>(); MOST];
    let mut c = [zero::<E>(); MOST];
    let mut all = [zero::<E>(); MOST];
    let (a, c, all) = (&mut a[..vl], &mut c[..vl], &mut all[..vlmax]);
    match insn {
        VPerm::SlideUp { .. } => slide_up(registers, scalar, setup, insn, a, c),
        VPerm::SlideDown { .. } => slide_down(registers, scalar, setup, insn, a, all),
        VPerm::SlideOneUp { .. } => slide_one_up(registers, scalar, setup, insn, a),
        VPerm::SlideOneDown { .. } => slide_one_down(registers, scalar, setup, insn, a),
        VPerm::Gather { .. } => gather(registers, scalar, setup, insn, a, all),
        VPerm::Gather16 { .. } => gather16(registers, scalar, setup, insn, a, all),
        VPerm::Compress { .. } => compress(registers, scalar, setup, insn, a),
    }
}

/// What an instruction that moves elements does to the registers.
pub fn permute<const VLENB: usize>(
    registers: &mut VregFile<VLENB>,
    scalar: &Scalar,
    setup: &Setup,
    insn: &VPerm,
)
    requires { IsReady VLENB setup.now (needs_of_perm insn.now) }
    ensures { registers.new ≡ perm_of VLENB setup.now scalar.now insn.now registers.old }
{
    on_sew!(setup, permute_elements(registers, scalar, setup, insn))
}
