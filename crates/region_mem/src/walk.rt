//! Accesses byte by byte, over any list of regions: those over regions that adjoin, and those that are refused.
ghost use Rattle.std.specs.Prelude.{unwrap_or, ◌≡◌, ◌+◌, ◌<◌, ◌^◌, IsTrue, find, length, position};
ghost use Rattle.std.specs.List.{list_all, range_with_len};
ghost use Rattle.region_mem.specs.Memory.{IsAccessSize};
ghost use Rattle.region_mem.specs.Areas.{holds, is_open, is_open_from, byte_at, number_at};
ghost use Rattle.region_mem.specs.Areas.{number_of, with_byte, with_bytes, with_number};

use crate::faults::Right;
use crate::region::Region;
use std::alloc::Allocator;

#[tactic(auto, unfolding(crate::specs::Areas::is_open))]
fn is_open<A: Allocator>(regions: &[Region<A>], right: Right, address: u64) -> bool
    ensures { result ≡ is_open right regions.now address }
{
    regions
        .iter()
        .any(|region| region.holds(address) && region.has_right(right))
}

/// Whether each byte of an access lies in a region with the right, and none past the last address.
#[tactic(auto, unfolding(crate::specs::Areas::is_open_from))]
pub(crate) fn permits<A: Allocator>(
    regions: &[Region<A>],
    right: Right,
    address: u64,
    size: u64,
) -> bool
    requires first { address < 2 ^ 32 }
    requires fits { size < 2 ^ 63 }
    ensures { result ≡ is_open_from right address size regions.now }
{
    address + size <= 1 << 32 && all_open(regions, right, address, size)
}

fn all_open<A: Allocator>(regions: &[Region<A>], right: Right, address: u64, size: u64) -> bool
    requires { address + size < 2 ^ 64 }
    ensures { result ≡ list_all (is_open right regions.now) (range_with_len address size) }
{
    (address..address + size).all(|at| is_open(regions, right, at))
}

/// The byte at an address, whatever the rights.
#[tactic(auto, unfolding(crate::specs::Areas::byte_at))]
fn byte<A: Allocator>(regions: &[Region<A>], address: u64) -> Option<u8>
    ensures { result ≡ byte_at address regions.now }
{
    let region = regions.iter().find(|region| region.holds(address))?;
    Some(region.byte(address))
}

#[tactic(auto, using(crate::specs::WriteLemmas::with_byte_first, crate::specs::WriteLemmas::with_byte_none, crate::specs::WriteLemmas::holds_first))]
fn set_byte<A: Allocator>(regions: &mut [Region<A>], address: u64, byte: u8)
    ensures { regions.new ≡ with_byte address byte regions.old }
{
    if let Some(place) = first_place(regions, address) {
        regions[place].set_byte(address, byte);
    }
}

/// The place of the first region that holds the byte at an address.
fn first_place<A: Allocator>(regions: &[Region<A>], address: u64) -> Option<usize>
    ensures { result ≡ position (holds address) regions.now }
{
    regions.iter().position(|region| region.holds(address))
}

#[tactic(auto, unfolding(crate::specs::Areas::number_at))]
fn byte_or_zero<A: Allocator>(regions: &[Region<A>], address: u64) -> u32
    ensures value { result ≡ unwrap_or (byte_at address regions.now) 0 }
    ensures small { result < 256 }
{
    match byte(regions, address) {
        Some(byte) => u32::from(byte),
        None => 0,
    }
}

/// The number in the n bytes from an address on, the lowest first.
#[tactic(auto, unfolding(crate::specs::Areas::number_at, crate::specs::Areas::number_of))]
pub(crate) fn number<A: Allocator>(regions: &[Region<A>], address: u64, n: usize) -> u32
    requires address { address < 2 ^ 32 }
    requires size { IsAccessSize n }
    ensures { result ≡ number_at address n regions.now }
{
    let lowest = byte_or_zero(regions, address);
    match n {
        1 => lowest,
        2 => lowest + 256 * byte_or_zero(regions, address + 1),
        _ => {
            let second = address + 1;
            let third = second + 1;
            let high = byte_or_zero(regions, third) + 256 * byte_or_zero(regions, third + 1);
            lowest + 256 * (byte_or_zero(regions, second) + 256 * high)
        }
    }
}

/// Writes bytes from an address on.
fn set_bytes<A: Allocator>(regions: &mut [Region<A>], address: u64, bytes: &[u8])
    requires { address + length bytes.now < 2 ^ 34 }
    ensures { regions.new ≡ with_bytes address bytes.now regions.old }
{
    for i in 0..bytes.len() {
        set_byte(regions, address + i as u64, bytes[i]);
    }
}

/// Writes the n lowest bytes of a value from an address on.
#[tactic(auto, using(crate::specs::PartLemmas::one_byte, crate::specs::PartLemmas::two_bytes, crate::specs::PartLemmas::four_bytes), unfolding(crate::specs::Areas::with_number))]
pub(crate) fn set_number<A: Allocator>(
    regions: &mut [Region<A>],
    address: u64,
    n: usize,
    value: u32,
)
    requires address { address < 2 ^ 32 }
    requires size { IsAccessSize n }
    ensures { regions.new ≡ with_number address n value regions.old }
{
    let bytes = value.to_le_bytes();
    match n {
        1 => set_bytes(regions, address, &bytes[..1]),
        2 => set_bytes(regions, address, &bytes[..2]),
        _ => set_bytes(regions, address, &bytes),
    }
}
