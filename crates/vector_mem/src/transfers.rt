//! Loads and stores: all of an instruction's accesses are made, or none.

ghost use Rattle.std.specs.Prelude.{◌≡◌, ◌≤◌, ◌*◌, false, true, None, IfSome, length, map};
ghost use Rattle.std.specs.Prelude.{replicate};
ghost use Rattle.std.specs.List.{All};
ghost use Rattle.std.specs.Option.{option_map};
ghost use Rattle.region_mem.specs.Faults.{Steps};
ghost use Rattle.region_mem.specs.declared.faults.Right.TheVariants.{Read, Write};
ghost use Rattle.rv_decode.specs.Needs.{needs_of_access};
ghost use Rattle.rv_decode.specs.declared.instructions.Direction.TheVariants.{Load, Store};
ghost use Rattle.vreg_groups.specs.Elements.{active_of};
ghost use Rattle.vreg_groups.specs.Group.{written};
ghost use Rattle.vreg_groups.specs.Setup.{IsReady};
ghost use Rattle.rv_decode.specs.Instructions.{bytes_of_width};
ghost use Rattle.vreg_groups.specs.declared.vector_type.TheConstants.{MOST_ELEMENTS};
ghost use Rattle.vector_mem.specs.Accesses.{IsAccessOf, first_refused, loaded, stored};
ghost use Rattle.vector_mem.specs.Transfers.{IsApart, IsTransfer, accesses_asked, data_of, load_asked};
ghost use Rattle.vector_mem.specs.Transfers.{loaded_to, store_asked, vector_load, vector_store};
ghost use Rattle.vector_mem.specs.Transfers.{width_at};

use crate::accesses::access;
use crate::each::{load_strided, store_element, store_strided};
use crate::elements::{Datum, splat, with_room};
use crate::operands::{data_group, in_a_row, masked, policy, width};
use crate::plan::AccessPlan;
use crate::windows::{load_window, store_window};
use region_mem::{Fault, Regions};
use rv_decode::{Addressing, VMem, Width};
use std::alloc::Allocator;
use vreg_groups::{Group, MOST_ELEMENTS, Policy, Setup, VregFile};

/// A load or store that is to be made: `base` is x[rs1], and `stride` x[rs2] of a strided access.
#[derive(Clone, Copy)]
struct Transfer {
    insn: VMem,
    setup: Setup,
    base: u32,
    stride: u32,
}

impl Transfer {
    fn new(insn: &VMem, setup: &Setup, base: u32, stride: u32) -> Transfer
        ensures { result ≡ record {
          insn = insn.now;
          setup = setup.now;
          base = base;
          stride = stride;
        } }
    {
        Transfer {
            insn: *insn,
            setup: *setup,
            base,
            stride,
        }
    }

    fn plan<const VLENB: usize>(&self, registers: &VregFile<VLENB>) -> AccessPlan
        requires { IsReady VLENB self.now.setup (needs_of_access self.now.insn) }
        ensures { result ≡ accesses_asked VLENB self.now registers.now }
    {
        access(&self.insn, registers, &self.setup, self.base, self.stride)
    }
}

/// Loads the elements, or answers the address of the first access that is not permitted.
#[tactic(auto, unfolding(crate::specs::Accesses::first_refused, crate::specs::Accesses::loaded))]
fn load_elements<E: Datum, A: Allocator>(
    plan: &AccessPlan,
    memory: &Regions<A>,
    values: &mut [E],
) -> Option<u32>
    requires { All (IsAccessOf Read E.Element.SIZE (length values.old)) plan.now }
    ensures refused { result ≡ option_map (λ a. a.address) (first_refused plan.now memory.now) }
    ensures loaded { result ≡ None → map E.Element.number values.new
        ≡ loaded (length values.old) plan.now memory.now }
{
    splat(E::low_bits(0), values);
    for access in plan.as_slice() {
        let Some(number) = memory.load(access.address, E::SIZE) else {
            return Some(access.address);
        };
        values[access.element] = E::low_bits(number);
    }
    None
}

/// The address of the first access that is not permitted.
#[tactic(auto, unfolding(crate::specs::Accesses::first_refused))]
fn refused<A: Allocator>(plan: &AccessPlan, memory: &Regions<A>) -> Option<u32>
    ensures { result ≡ option_map (λ a. a.address) (first_refused plan.now memory.now) }
{
    plan.as_slice()
        .iter()
        .find(|a| !memory.permits(a.right, a.address, usize::from(a.size)))
        .map(|a| a.address)
}

/// Stores the elements.
#[tactic(auto, unfolding(crate::specs::Accesses::stored))]
fn store_elements<E: Datum, A: Allocator>(plan: &AccessPlan, memory: &mut Regions<A>, values: &[E])
    requires { All (IsAccessOf Write E.Element.SIZE (length values.now)) plan.now }
    ensures { memory.new ≡ stored plan.now (map E.Element.number values.now) memory.old }
{
    for access in plan.as_slice() {
        store_element(
            memory,
            access.address,
            E::SIZE,
            values[access.element].to_number(),
        );
    }
}

/// Loads the elements of an instruction, or answers the address of the first access that is not permitted.
#[tactic(auto, unfolding(crate::specs::Transfers::place_at))]
fn load_values<E: Datum, const VLENB: usize, A: Allocator>(
    asked: &Transfer,
    registers: &VregFile<VLENB>,
    memory: &Regions<A>,
    values: &mut [E],
) -> Option<u32>
    requires asked { IsTransfer VLENB asked.now Load }
    requires size { E.Element.SIZE ≡ (data_of VLENB asked.now.setup asked.now.insn).bytes }
    requires length { length values.old ≡ (data_of VLENB asked.now.setup asked.now.insn).vl }
    ensures refused { result ≡ option_map (λ a. a.address)
        (first_refused (accesses_asked VLENB asked.now registers.now) memory.now) }
    ensures loaded { result ≡ None → map E.Element.number values.new
        ≡ loaded (length values.old) (accesses_asked VLENB asked.now registers.now) memory.now }
{
    let place = asked.insn.place;
    match place {
        Addressing::Indexed { .. } => load_planned(asked, registers, memory, values),
        Addressing::Strided { .. } => { load_apart(asked, registers, asked.stride, memory, values) }
        Addressing::Unit { .. } | Addressing::Mask | Addressing::Whole { .. } => {
            let size = width(&asked.insn, &asked.setup).bytes();
            load_apart(asked, registers, u32::from(size), memory, values)
        }
    }
}

/// The same by a plan. It is apart, so that what needs no plan makes none.
#[inline(never)]
fn load_planned<E: Datum, const VLENB: usize, A: Allocator>(
    asked: &Transfer,
    registers: &VregFile<VLENB>,
    memory: &Regions<A>,
    values: &mut [E],
) -> Option<u32>
    requires asked { IsTransfer VLENB asked.now Load }
    requires size { E.Element.SIZE ≡ (data_of VLENB asked.now.setup asked.now.insn).bytes }
    requires length { length values.old ≡ (data_of VLENB asked.now.setup asked.now.insn).vl }
    ensures refused { result ≡ option_map (λ a. a.address)
        (first_refused (accesses_asked VLENB asked.now registers.now) memory.now) }
    ensures loaded { result ≡ None → map E.Element.number values.new
        ≡ loaded (length values.old) (accesses_asked VLENB asked.now registers.now) memory.now }
{
    let plan = asked.plan(registers);
    load_elements(&plan, memory, values)
}

/// The same of elements that lie `stride` bytes apart.
#[tactic(auto, unfolding(crate::specs::Transfers::accesses_of))]
fn load_apart<E: Datum, const VLENB: usize, A: Allocator>(
    asked: &Transfer,
    registers: &VregFile<VLENB>,
    stride: u32,
    memory: &Regions<A>,
    values: &mut [E],
) -> Option<u32>
    requires asked { IsTransfer VLENB asked.now Load }
    requires size { E.Element.SIZE ≡ (data_of VLENB asked.now.setup asked.now.insn).bytes }
    requires length { length values.old ≡ (data_of VLENB asked.now.setup asked.now.insn).vl }
    requires place { IsApart VLENB asked.now stride registers.now }
    ensures refused { result ≡ option_map (λ a. a.address)
        (first_refused (accesses_asked VLENB asked.now registers.now) memory.now) }
    ensures loaded { result ≡ None → map E.Element.number values.new
        ≡ loaded (length values.old) (accesses_asked VLENB asked.now registers.now) memory.now }
{
    let group = data_group::<VLENB>(&asked.insn, &asked.setup);
    let mut bits = [false; MOST_ELEMENTS];
    let active = &mut bits[..group.vl()];
    registers.read_active(masked(&asked.insn), active);
    load_strided(active, asked.base, stride, memory, values)
}

/// Writes the elements that were loaded to the registers: nothing where there are none.
#[tactic(auto, unfolding(crate::specs::Transfers::loaded_to))]
fn write_loaded<E: Datum, const VLENB: usize>(
    insn: &VMem,
    registers: &mut VregFile<VLENB>,
    setup: &Setup,
    group: &Group<VLENB>,
    values: &[E],
)
    requires group { group.now ≡ data_of VLENB setup.now insn.now }
    requires size { E.Element.SIZE ≡ group.now.bytes }
    requires length { length values.now ≡ group.now.vl }
    requires bits { group.now.vl ≤ 8 * VLENB }
    ensures { registers.new ≡ loaded_to VLENB setup.now insn.now (map E.Element.number values.now)
        registers.old }
{
    if group.vl() == 0 {
        return;
    }
    if masked(insn) {
        write_active(registers, group, values, policy(insn, setup));
    } else {
        write_whole(registers, group, values, policy(insn, setup));
    }
}

/// The same where the bits of v0 say which elements were loaded.
fn write_active<E: Datum, const VLENB: usize>(
    registers: &mut VregFile<VLENB>,
    group: &Group<VLENB>,
    values: &[E],
    policy: Policy,
)
    requires size { E.Element.SIZE ≡ group.now.bytes }
    requires bits { group.now.vl ≤ 8 * VLENB }
    ensures { registers.new ≡ written VLENB group.now policy (map E.Element.number values.now)
        (active_of VLENB true group.now.vl registers.old) registers.old }
{
    let mut bits = [false; MOST_ELEMENTS];
    let active = &mut bits[..group.vl()];
    registers.read_active(true, active);
    group.write(registers, values, active, policy);
}

/// The same where all elements were.
#[tactic(auto, unfolding(vreg_groups::specs::Elements::active_of))]
fn write_whole<E: Datum, const VLENB: usize>(
    registers: &mut VregFile<VLENB>,
    group: &Group<VLENB>,
    values: &[E],
    policy: Policy,
)
    requires size { E.Element.SIZE ≡ group.now.bytes }
    requires length { length values.now ≡ group.now.vl }
    ensures { registers.new ≡ written VLENB group.now policy (map E.Element.number values.now)
        (active_of VLENB false group.now.vl registers.old) registers.old }
{
    group.write_all(registers, values, policy);
}

/// A load of elements of one width, with room for them in `values`.
#[tactic(auto, unfolding(crate::specs::Transfers::vector_load))]
fn load_as<E: Datum, const VLENB: usize, A: Allocator>(
    asked: &Transfer,
    registers: &mut VregFile<VLENB>,
    memory: &Regions<A>,
    values: &mut [E],
) -> Result<(), Fault>
    requires asked { IsTransfer VLENB asked.now Load }
    requires size { E.Element.SIZE
        ≡ bytes_of_width (width_at asked.now.setup asked.now.insn.place) }
    requires room { MOST_ELEMENTS ≤ E.Element.SIZE * length values.old }
    ensures { Steps (load_asked VLENB asked.now registers.old memory.now)
        registers.old registers.new result }
{
    let group = data_group(&asked.insn, &asked.setup);
    let values = &mut values[..group.vl()];
    if let Some(address) = load_values(asked, registers, memory, values) {
        return Err(Fault::LoadFault(address));
    }
    write_loaded(&asked.insn, registers, &asked.setup, &group, values);
    Ok(())
}

/// A vector load whose elements are loaded one by one. It is apart so that what needs no room for elements makes none.
#[inline(never)]
fn load_each<const VLENB: usize, A: Allocator>(
    asked: &Transfer,
    registers: &mut VregFile<VLENB>,
    memory: &Regions<A>,
) -> Result<(), Fault>
    requires { IsTransfer VLENB asked.now Load }
    ensures { Steps (load_asked VLENB asked.now registers.old memory.now)
        registers.old registers.new result }
{
    let width = width(&asked.insn, &asked.setup);
    with_room!(width, room => load_as(asked, registers, memory, &mut room))
}

/// A vector load: all of its elements are loaded to their registers, or the fault is that of the lowest-numbered element
/// that may not be loaded, and nothing changes. `base` is x[rs1], and `stride` x[rs2] of a strided access.
pub fn load<const VLENB: usize, A: Allocator>(
    insn: &VMem,
    registers: &mut VregFile<VLENB>,
    setup: &Setup,
    base: u32,
    stride: u32,
    memory: &Regions<A>,
) -> Result<(), Fault>
    requires ready { IsReady VLENB setup.now (needs_of_access insn.now) }
    requires direction { insn.now.direction ≡ Load }
    ensures { Steps (vector_load VLENB setup.now insn.now base stride registers.old memory.now)
        registers.old registers.new result }
{
    if in_a_row(insn) {
        let group = data_group(insn, setup);
        if load_window(&group, registers, base, policy(insn, setup), memory) {
            return Ok(());
        }
    }
    let asked = Transfer::new(insn, setup, base, stride);
    load_each(&asked, registers, memory)
}

/// Stores the elements of an instruction, or answers the address of the first access that is not permitted.
#[tactic(auto, unfolding(crate::specs::Transfers::place_at))]
fn store_values<E: Datum, const VLENB: usize, A: Allocator>(
    asked: &Transfer,
    registers: &VregFile<VLENB>,
    memory: &mut Regions<A>,
    values: &[E],
) -> Option<u32>
    requires asked { IsTransfer VLENB asked.now Store }
    requires size { E.Element.SIZE ≡ (data_of VLENB asked.now.setup asked.now.insn).bytes }
    requires length { length values.now ≡ (data_of VLENB asked.now.setup asked.now.insn).vl }
    ensures refused { result ≡ option_map (λ a. a.address)
        (first_refused (accesses_asked VLENB asked.now registers.now) memory.old) }
    ensures stored { result ≡ None
        → memory.new ≡ stored (accesses_asked VLENB asked.now registers.now)
        (map E.Element.number values.now) memory.old }
    ensures kept { IfSome result (λ _. memory.new ≡ memory.old) }
{
    let place = asked.insn.place;
    match place {
        Addressing::Indexed { .. } => store_planned(asked, registers, memory, values),
        Addressing::Strided { .. } => {
            store_apart(asked, registers, asked.stride, memory, values)
        }
        Addressing::Unit { .. } | Addressing::Mask | Addressing::Whole { .. } => {
            let size = width(&asked.insn, &asked.setup).bytes();
            store_apart(asked, registers, u32::from(size), memory, values)
        }
    }
}

/// The same by a plan.
#[inline(never)]
fn store_planned<E: Datum, const VLENB: usize, A: Allocator>(
    asked: &Transfer,
    registers: &VregFile<VLENB>,
    memory: &mut Regions<A>,
    values: &[E],
) -> Option<u32>
    requires asked { IsTransfer VLENB asked.now Store }
    requires size { E.Element.SIZE ≡ (data_of VLENB asked.now.setup asked.now.insn).bytes }
    requires length { length values.now ≡ (data_of VLENB asked.now.setup asked.now.insn).vl }
    ensures refused { result ≡ option_map (λ a. a.address)
        (first_refused (accesses_asked VLENB asked.now registers.now) memory.old) }
    ensures stored { result ≡ None
        → memory.new ≡ stored (accesses_asked VLENB asked.now registers.now)
        (map E.Element.number values.now) memory.old }
    ensures kept { IfSome result (λ _. memory.new ≡ memory.old) }
{
    let plan = asked.plan(registers);
    let refused = refused(&plan, memory);
    if refused.is_none() {
        store_elements(&plan, memory, values);
    }
    refused
}

/// The same of elements that lie `stride` bytes apart.
#[tactic(auto, unfolding(crate::specs::Transfers::accesses_of))]
fn store_apart<E: Datum, const VLENB: usize, A: Allocator>(
    asked: &Transfer,
    registers: &VregFile<VLENB>,
    stride: u32,
    memory: &mut Regions<A>,
    values: &[E],
) -> Option<u32>
    requires asked { IsTransfer VLENB asked.now Store }
    requires size { E.Element.SIZE ≡ (data_of VLENB asked.now.setup asked.now.insn).bytes }
    requires length { length values.now ≡ (data_of VLENB asked.now.setup asked.now.insn).vl }
    requires place { IsApart VLENB asked.now stride registers.now }
    ensures refused { result ≡ option_map (λ a. a.address)
        (first_refused (accesses_asked VLENB asked.now registers.now) memory.old) }
    ensures stored { result ≡ None
        → memory.new ≡ stored (accesses_asked VLENB asked.now registers.now)
        (map E.Element.number values.now) memory.old }
    ensures kept { IfSome result (λ _. memory.new ≡ memory.old) }
{
    let group = data_group::<VLENB>(&asked.insn, &asked.setup);
    let mut bits = [false; MOST_ELEMENTS];
    let active = &mut bits[..group.vl()];
    registers.read_active(masked(&asked.insn), active);
    store_strided(active, asked.base, stride, memory, values)
}

/// A store of elements of one width, with room for them in `values`.
#[tactic(auto, unfolding(crate::specs::Transfers::vector_store))]
fn store_as<E: Datum, const VLENB: usize, A: Allocator>(
    asked: &Transfer,
    registers: &VregFile<VLENB>,
    memory: &mut Regions<A>,
    values: &mut [E],
) -> Result<(), Fault>
    requires asked { IsTransfer VLENB asked.now Store }
    requires size { E.Element.SIZE
        ≡ bytes_of_width (width_at asked.now.setup asked.now.insn.place) }
    requires room { MOST_ELEMENTS ≤ E.Element.SIZE * length values.old }
    ensures { Steps (store_asked VLENB asked.now registers.now memory.old)
        memory.old memory.new result }
{
    let group = data_group(&asked.insn, &asked.setup);
    let values = &mut values[..group.vl()];
    group.read(registers, values);
    match store_values(asked, registers, memory, values) {
        Some(address) => Err(Fault::StoreFault(address)),
        None => Ok(()),
    }
}

/// A vector store whose elements are stored one by one.
#[inline(never)]
fn store_each<const VLENB: usize, A: Allocator>(
    asked: &Transfer,
    registers: &VregFile<VLENB>,
    memory: &mut Regions<A>,
) -> Result<(), Fault>
    requires { IsTransfer VLENB asked.now Store }
    ensures { Steps (store_asked VLENB asked.now registers.now memory.old)
        memory.old memory.new result }
{
    let width = width(&asked.insn, &asked.setup);
    with_room!(width, room => store_as(asked, registers, memory, &mut room))
}

/// A vector store: all of its elements are stored, or the fault is that of the lowest-numbered element that may not be
/// stored, and nothing changes. `base` is x[rs1], and `stride` x[rs2] of a strided access.
pub fn store<const VLENB: usize, A: Allocator>(
    insn: &VMem,
    registers: &VregFile<VLENB>,
    setup: &Setup,
    base: u32,
    stride: u32,
    memory: &mut Regions<A>,
) -> Result<(), Fault>
    requires ready { IsReady VLENB setup.now (needs_of_access insn.now) }
    requires direction { insn.now.direction ≡ Store }
    ensures { Steps (vector_store VLENB setup.now insn.now base stride registers.now memory.old)
        memory.old memory.new result }
{
    if in_a_row(insn) {
        let group = data_group(insn, setup);
        if store_window(&group, registers, base, memory) {
            return Ok(());
        }
    }
    let asked = Transfer::new(insn, setup, base, stride);
    store_each(&asked, registers, memory)
}
