//! The accesses of an instruction.

ghost use Rattle.std.specs.Prelude.{◌≡◌, ℕ, ◌<◌, ◌≤◌, ◌+◌, ◌*◌, ◌%◌, ◌^◌, length, slice_index};
ghost use Rattle.rv_decode.specs.Needs.{needs_of_access};
ghost use Rattle.vreg_groups.specs.Setup.{IsReady};
ghost use Rattle.vreg_groups.specs.declared.vector_type.TheConstants.{MOST_ELEMENTS};
ghost use Rattle.vector_mem.specs.Accesses.{AreAddresses, accesses, indexed, strided};
ghost use Rattle.vector_mem.specs.Transfers.{accesses_of, right_of};

use crate::operands::{data_group, masked, read_indices, width};
use crate::plan::{Access, AccessPlan};
use region_mem::Right;
use rv_decode::{Addressing, Direction, VMem};
use vreg_groups::{MOST_ELEMENTS, Setup, VregFile};

/// The accesses of the active elements. Element i lies at `address(i)`.
fn plan<F: Fn(usize) -> u32>(right: Right, size: u8, active: &[bool], address: F) -> AccessPlan
    requires few { length active.now ≤ MOST_ELEMENTS }
    requires callable { (i : ℕ) → i < length active.now → F.pre address i }
    ensures { (place : ℕ → ℕ) → AreAddresses (F.post address) place (length active.now)
        → result ≡ accesses right size place active.now }
{
    let mut plan = AccessPlan::new();
    for element in 0..active.len() {
        if active[element] {
            plan.push(Access {
                element,
                address: address(element),
                size,
                right,
            });
        }
    }
    plan
}

// The address of element `i` of those that lie `stride` bytes apart.
pub fn strided_address(base: u32, stride: u32, i: usize) -> u32
    requires { i ≤ MOST_ELEMENTS }
    ensures { result ≡ (base + stride * i) % 2 ^ 32 }
{
    base.wrapping_add(stride.wrapping_mul(i as u32))
}

/// The accesses of the active elements that lie `stride` bytes apart from `base` on.
fn strided_plan(right: Right, size: u8, base: u32, stride: u32, active: &[bool]) -> AccessPlan
    requires { length active.now ≤ MOST_ELEMENTS }
    ensures { result ≡ accesses right size (strided base stride) active.now }
{
    plan(right, size, active, |i| strided_address(base, stride, i))
}

/// The accesses of the active elements that lie as far from `base` as their indices say.
fn indexed_plan(right: Right, size: u8, base: u32, indices: &[u32], active: &[bool]) -> AccessPlan
    requires len { length indices.now ≡ length active.now }
    requires few { length active.now ≤ MOST_ELEMENTS }
    ensures { result ≡ accesses right size (indexed base indices.now) active.now }
{
    plan(right, size, active, |i| base.wrapping_add(indices[i]))
}

fn right(direction: Direction) -> Right
    ensures { result ≡ right_of direction }
{
    match direction {
        Direction::Load => Right::Read,
        Direction::Store => Right::Write,
    }
}

/// The accesses of a load or store: one for each element that it moves, in rising order. `base` is x[rs1] and `stride`
/// x[rs2], which a strided access alone uses.
///
/// Elements are of the instruction's width, and lie one after another, `stride` bytes apart, or as far from `base` as
/// unsigned indices say; those of an indexed access are of SEW. Addresses are modulo 2^32. Of a mask the bytes that hold
/// the bits of vl elements are moved, and of whole registers all elements, whatever vtype and vl are.
#[tactic(auto, unfolding(crate::specs::Transfers::accesses_of, crate::specs::Transfers::place_at, crate::specs::Transfers::data_at))]
pub fn access<const VLENB: usize>(
    insn: &VMem,
    registers: &VregFile<VLENB>,
    setup: &Setup,
    base: u32,
    stride: u32,
) -> AccessPlan
    requires { IsReady VLENB setup.now (needs_of_access insn.now) }
    ensures { result ≡ accesses_of VLENB setup.now insn.now base stride registers.now }
{
    let place = insn.place;
    let group = data_group::<VLENB>(insn, setup);
    let mut bits = [false; MOST_ELEMENTS];
    let active = &mut bits[..group.vl()];
    registers.read_active(masked(insn), active);
    let right = right(insn.direction);
    let size = width(insn, setup).bytes();
    match place {
        Addressing::Unit { .. } => strided_plan(right, size, base, u32::from(size), active),
        Addressing::Mask => strided_plan(right, size, base, u32::from(size), active),
        Addressing::Whole { .. } => strided_plan(right, size, base, u32::from(size), active),
        Addressing::Strided { .. } => strided_plan(right, size, base, stride, active),
        Addressing::Indexed { width, vs2, .. } => {
            let mut indices = [0u32; MOST_ELEMENTS];
            let indices = &mut indices[..setup.vl];
            read_indices(registers, setup, vs2, width, indices);
            indexed_plan(right, size, base, indices, active)
        }
    }
}
