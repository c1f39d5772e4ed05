//! What a load or store reads from the registers: which elements it moves, and how far from the base they lie.

ghost use Rattle.std.specs.Prelude.{◌≡◌, ◌≤◌, ◌*◌, length};
ghost use Rattle.rv_decode.specs.Needs.{needs_of_access};
ghost use Rattle.rv_decode.specs.declared.extents.Eew.TheVariants.{Fixed};
ghost use Rattle.vreg_groups.specs.Group.{IsGroupInside, body_of};
ghost use Rattle.vreg_groups.specs.Setup.{IsReady, IsSetup, group_at};
ghost use Rattle.rv_decode.specs.Instructions.{bytes_of_width};
ghost use Rattle.vreg_groups.specs.declared.vector_type.TheConstants.{MOST_ELEMENTS};
ghost use Rattle.vector_mem.specs.Transfers.{data_of, is_in_a_row, is_masked, load_policy};
ghost use Rattle.vector_mem.specs.Transfers.{width_at};

use crate::elements::{Datum, with_room};
use rv_decode::{Addressing, Eew, Reg, VMem, Width};
use vreg_groups::{Group, MOST_ELEMENTS, Policy, Setup, VregFile};

/// The registers of the data and the elements that are moved.
#[tactic(auto, unfolding(crate::specs::Transfers::data_at))]
pub fn data_group<const VLENB: usize>(insn: &VMem, setup: &Setup) -> Group<VLENB>
    requires { IsReady VLENB setup.now (needs_of_access insn.now) }
    ensures meaning { result ≡ data_of VLENB setup.now insn.now }
    ensures bits { result.vl ≤ 8 * VLENB }
    ensures bytes { result.bytes ≡ bytes_of_width (width_at setup.now insn.now.place) }
{
    let place = insn.place;
    match place {
        Addressing::Unit { width, .. } => setup.group(insn.values, Eew::Fixed(width)),
        Addressing::Strided { width, .. } => setup.group(insn.values, Eew::Fixed(width)),
        Addressing::Indexed { .. } => setup.group(insn.values, Eew::Same),
        Addressing::Mask => Group::mask_bytes(setup.vl, insn.values),
        Addressing::Whole { width, count } => Group::whole(insn.values, count, width),
    }
}

/// The width of its elements.
pub fn width(insn: &VMem, setup: &Setup) -> Width
    ensures { result ≡ width_at setup.now insn.now.place }
{
    let place = insn.place;
    match place {
        Addressing::Unit { width, .. }
        | Addressing::Strided { width, .. }
        | Addressing::Whole { width, .. } => width,
        Addressing::Indexed { .. } => setup.vtype.sew,
        Addressing::Mask => Width::W8,
    }
}

/// Whether only those are moved whose bit of v0 is 1.
pub fn masked(insn: &VMem) -> bool
    ensures { result ≡ is_masked insn.now.place }
{
    let place = insn.place;
    match place {
        Addressing::Unit { masked, .. }
        | Addressing::Strided { masked, .. }
        | Addressing::Indexed { masked, .. } => masked,
        Addressing::Mask | Addressing::Whole { .. } => false,
    }
}

/// Whether the elements lie one after another, and all of them are moved.
pub fn in_a_row(insn: &VMem) -> bool
    ensures { result ≡ is_in_a_row insn.now.place }
{
    let place = insn.place;
    match place {
        Addressing::Unit { masked, .. } => !masked,
        Addressing::Strided { .. } | Addressing::Indexed { .. } => false,
        Addressing::Mask | Addressing::Whole { .. } => true,
    }
}

/// What becomes of the elements that are not loaded.
pub fn policy(insn: &VMem, setup: &Setup) -> Policy
    ensures { result ≡ load_policy setup.now insn.now.place }
{
    let place = insn.place;
    match place {
        Addressing::Mask => setup.mask_policy(),
        Addressing::Unit { .. }
        | Addressing::Strided { .. }
        | Addressing::Indexed { .. }
        | Addressing::Whole { .. } => setup.policy(),
    }
}

/// Reads the elements of a body as numbers, by way of `elements`.
fn read_elements<E: Datum, const VLENB: usize>(
    group: &Group<VLENB>,
    registers: &VregFile<VLENB>,
    elements: &mut [E],
    numbers: &mut [u32],
)
    requires width { E.Element.SIZE ≡ group.now.bytes }
    requires elements { length elements.old ≡ group.now.vl }
    requires numbers { length numbers.old ≡ group.now.vl }
    ensures { numbers.new ≡ body_of VLENB group.now registers.now }
{
    group.read(registers, elements);
    for i in 0..numbers.len() {
        numbers[i] = elements[i].to_number();
    }
}

/// Reads the elements of a body as numbers.
pub fn read_numbers<const VLENB: usize>(
    group: &Group<VLENB>,
    width: Width,
    registers: &VregFile<VLENB>,
    numbers: &mut [u32],
)
    requires width { group.now.bytes ≡ bytes_of_width width }
    requires length { length numbers.old ≡ group.now.vl }
    ensures { numbers.new ≡ body_of VLENB group.now registers.now }
{
    let vl = group.vl();
    with_room!(width, room => read_elements(group, registers, &mut room[..vl], numbers));
}

/// Reads the indices of an indexed access, of this width.
pub fn read_indices<const VLENB: usize>(
    registers: &VregFile<VLENB>,
    setup: &Setup,
    vs2: Reg,
    width: Width,
    indices: &mut [u32],
)
    requires setup { IsSetup VLENB setup.now }
    requires inside { IsGroupInside setup.now.vtype vs2 (Fixed width) }
    requires length { length indices.old ≡ setup.now.vl }
    ensures { indices.new ≡ body_of VLENB (group_at setup.now vs2 (Fixed width)) registers.now }
{
    let group = setup.group::<VLENB>(vs2, Eew::Fixed(width));
    read_numbers(&group, width, registers, indices);
}
