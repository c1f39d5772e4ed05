//! Elements that are loaded and stored one by one: those that are active, the lowest-numbered first.

ghost use Rattle.std.specs.Prelude.{◌≡◌, ℕ, ◌<◌, ◌≤◌, None, IfSome, length, map, unwrap_or};
ghost use Rattle.std.specs.Option.{option_map};
ghost use Rattle.region_mem.specs.Memory.{IsAccessSize, store_of};
ghost use Rattle.region_mem.specs.declared.faults.Right.TheVariants.{Read, Write};
ghost use Rattle.vreg_groups.specs.declared.vector_type.TheConstants.{MOST_ELEMENTS};
ghost use Rattle.vector_mem.specs.Accesses.{AreAddresses, accesses, first_refused, indexed, loaded};
ghost use Rattle.vector_mem.specs.Accesses.{stored, strided};

use crate::accesses::strided_address;
use crate::elements::{Datum, splat};
use region_mem::{Regions, Right};
use std::alloc::Allocator;

/// Loads the active elements, or answers the address of the first that may not be loaded. Element i lies at `address(i)`.
#[tactic(auto, unfolding(crate::specs::Accesses::first_refused, crate::specs::Accesses::loaded))]
fn load_active<E: Datum, A: Allocator, F: Fn(usize) -> u32>(
    active: &[bool],
    address: F,
    memory: &Regions<A>,
    values: &mut [E],
) -> Option<u32>
    requires len { length values.old ≡ length active.now }
    requires callable { (i : ℕ) → i < length active.now → F.pre address i }
    ensures refused { (place : ℕ → ℕ) → AreAddresses (F.post address) place (length active.now)
        → result ≡ option_map (λ a. a.address)
        (first_refused (accesses Read E.Element.SIZE place active.now) memory.now) }
    ensures loaded { (place : ℕ → ℕ) → AreAddresses (F.post address) place (length active.now)
        → result ≡ None → map E.Element.number values.new
        ≡ loaded (length values.old) (accesses Read E.Element.SIZE place active.now) memory.now }
{
    splat(E::low_bits(0), values);
    for i in 0..active.len() {
        if active[i] {
            let place = address(i);
            let Some(number) = memory.load(place, E::SIZE) else {
                return Some(place);
            };
            values[i] = E::low_bits(number);
        }
    }
    None
}

/// Loads the active elements, which lie `stride` bytes apart from `base` on.
pub fn load_strided<E: Datum, A: Allocator>(
    active: &[bool],
    base: u32,
    stride: u32,
    memory: &Regions<A>,
    values: &mut [E],
) -> Option<u32>
    requires len { length values.old ≡ length active.now }
    requires few { length active.now ≤ MOST_ELEMENTS }
    ensures refused { result ≡ option_map (λ a. a.address)
        (first_refused (accesses Read E.Element.SIZE (strided base stride) active.now) memory.now) }
    ensures loaded { result ≡ None → map E.Element.number values.new ≡ loaded (length values.old)
        (accesses Read E.Element.SIZE (strided base stride) active.now) memory.now }
{
    load_active(active, |i| strided_address(base, stride, i), memory, values)
}

/// Loads the active elements, which lie as far from `base` as their indices say.
pub fn load_indexed<E: Datum, A: Allocator>(
    active: &[bool],
    base: u32,
    indices: &[u32],
    memory: &Regions<A>,
    values: &mut [E],
) -> Option<u32>
    requires len { length values.old ≡ length active.now }
    requires indices { length indices.now ≡ length active.now }
    ensures refused { result ≡ option_map (λ a. a.address) (first_refused
        (accesses Read E.Element.SIZE (indexed base indices.now) active.now) memory.now) }
    ensures loaded { result ≡ None → map E.Element.number values.new ≡ loaded (length values.old)
        (accesses Read E.Element.SIZE (indexed base indices.now) active.now) memory.now }
{
    load_active(active, |i| base.wrapping_add(indices[i]), memory, values)
}

/// Stores the active elements, or answers the address of the first that may not be stored, and stores none. Element i lies
/// at `address(i)`.
#[tactic(auto, unfolding(crate::specs::Accesses::first_refused, crate::specs::Accesses::stored))]
fn store_active<E: Datum, A: Allocator, F: Fn(usize) -> u32>(
    active: &[bool],
    address: F,
    memory: &mut Regions<A>,
    values: &[E],
) -> Option<u32>
    requires len { length values.now ≡ length active.now }
    requires callable { (i : ℕ) → i < length active.now → F.pre address i }
    ensures refused { (place : ℕ → ℕ) → AreAddresses (F.post address) place (length active.now)
        → result ≡ option_map (λ a. a.address)
        (first_refused (accesses Write E.Element.SIZE place active.now) memory.old) }
    ensures stored { (place : ℕ → ℕ) → AreAddresses (F.post address) place (length active.now)
        → result ≡ None → memory.new ≡ stored (accesses Write E.Element.SIZE place active.now)
        (map E.Element.number values.now) memory.old }
    ensures kept { IfSome result (λ _. memory.new ≡ memory.old) }
{
    for i in 0..active.len() {
        if active[i] {
            let place = address(i);
            if !memory.permits(Right::Write, place, E::SIZE) {
                return Some(place);
            }
        }
    }
    for i in 0..active.len() {
        if active[i] {
            store_element(memory, address(i), E::SIZE, values[i].to_number());
        }
    }
    None
}

/// Stores an element, where it is permitted.
pub fn store_element<A: Allocator>(memory: &mut Regions<A>, address: u32, size: usize, value: u32)
    requires { IsAccessSize size }
    ensures { memory.new ≡ unwrap_or (store_of address size value memory.old) memory.old }
{
    let _is_stored = memory.store(address, size, value);
}

/// Stores the active elements, which lie `stride` bytes apart from `base` on.
pub fn store_strided<E: Datum, A: Allocator>(
    active: &[bool],
    base: u32,
    stride: u32,
    memory: &mut Regions<A>,
    values: &[E],
) -> Option<u32>
    requires len { length values.now ≡ length active.now }
    requires few { length active.now ≤ MOST_ELEMENTS }
    ensures refused { result ≡ option_map (λ a. a.address)
        (first_refused (accesses Write E.Element.SIZE (strided base stride) active.now) memory.old) }
    ensures stored { result ≡ None → memory.new
        ≡ stored (accesses Write E.Element.SIZE (strided base stride) active.now)
        (map E.Element.number values.now) memory.old }
    ensures kept { IfSome result (λ _. memory.new ≡ memory.old) }
{
    store_active(active, |i| strided_address(base, stride, i), memory, values)
}

/// Stores the active elements, which lie as far from `base` as their indices say.
pub fn store_indexed<E: Datum, A: Allocator>(
    active: &[bool],
    base: u32,
    indices: &[u32],
    memory: &mut Regions<A>,
    values: &[E],
) -> Option<u32>
    requires len { length values.now ≡ length active.now }
    requires indices { length indices.now ≡ length active.now }
    ensures refused { result ≡ option_map (λ a. a.address) (first_refused
        (accesses Write E.Element.SIZE (indexed base indices.now) active.now) memory.old) }
    ensures stored { result ≡ None → memory.new
        ≡ stored (accesses Write E.Element.SIZE (indexed base indices.now) active.now)
        (map E.Element.number values.now) memory.old }
    ensures kept { IfSome result (λ _. memory.new ≡ memory.old) }
{
    store_active(active, |i| base.wrapping_add(indices[i]), memory, values)
}
