//! A body that lies from an address on in one region: its bytes are moved at once between memory and the registers.

ghost use Rattle.std.specs.Prelude.{◌≡◌, ◌<◌, ◌*◌, All, None, false, is_some, replicate, true};
ghost use Rattle.region_mem.specs.Memory.{has_window, window_of};
ghost use Rattle.region_mem.specs.declared.faults.Right.TheVariants.{Read, Write};
ghost use Rattle.vreg_groups.specs.Group.{IsSize, body_of, written};
ghost use Rattle.vector_mem.specs.Accesses.{first_refused, in_a_row, loaded, stored};

use region_mem::{Regions, loads_in_windows, stores_in_windows};
use std::alloc::Allocator;
use vreg_groups::{Group, Policy, VregFile};

/// Each of the bytes is below 256: a proof hears here of the bytes of a window.
fn are_bytes(bytes: &[u8])
    ensures { All (λ byte. byte < 256) bytes.now }
{
    let _ = bytes;
}

/// Loads the body that lies from `base` on to its registers, and tells whether one region has it.
pub fn load_window<const VLENB: usize, A: Allocator>(
    group: &Group<VLENB>,
    registers: &mut VregFile<VLENB>,
    base: u32,
    policy: Policy,
    memory: &Regions<A>,
) -> bool
    requires { IsSize group.now.bytes }
    ensures some { result ≡ true → 0 < group.now.vl }
    ensures found { 0 < group.now.vl → result
        ≡ is_some (window_of base (group.now.bytes * group.now.vl) memory.now) }
    ensures permitted { result ≡ true → first_refused (in_a_row Read group.now.bytes base
        group.now.vl) memory.now ≡ None }
    ensures loaded { result ≡ true → registers.new ≡ written VLENB group.now policy
        (loaded group.now.vl (in_a_row Read group.now.bytes base group.now.vl) memory.now)
        (replicate group.now.vl true) registers.old }
    ensures kept { result ≡ false → registers.new ≡ registers.old }
{
    let _vl = group.vl();
    let size = group.body_bytes(registers).len();
    if size == 0 {
        return false;
    }
    loads_in_windows(memory);
    let Some(bytes) = memory.window(base, size) else {
        return false;
    };
    are_bytes(bytes);
    group.write_bytes(registers, bytes, policy);
    true
}

/// Stores the body from `base` on, where one region has it, and tells whether one has.
pub fn store_window<const VLENB: usize, A: Allocator>(
    group: &Group<VLENB>,
    registers: &VregFile<VLENB>,
    base: u32,
    memory: &mut Regions<A>,
) -> bool
    requires { IsSize group.now.bytes }
    ensures found { 0 < group.now.vl → result
        ≡ has_window base (group.now.bytes * group.now.vl) memory.old }
    ensures permitted { result ≡ true → first_refused (in_a_row Write group.now.bytes base
        group.now.vl) memory.old ≡ None }
    ensures stored { result ≡ true → memory.new ≡ stored (in_a_row Write group.now.bytes base
        group.now.vl) (body_of VLENB group.now registers.now) memory.old }
    ensures kept { result ≡ false → memory.new ≡ memory.old }
{
    let _vl = group.vl();
    let bytes = group.body_bytes(registers);
    if bytes.is_empty() || !memory.has_window(base, bytes.len()) {
        return false;
    }
    stores_in_windows(memory);
    memory.set_window(base, bytes);
    true
}
