//! Regions in order: the one that an address lies in is found by a search, and an access that it holds whole goes to it
//! at once.
ghost use Rattle.std.specs.Prelude.{◌≡◌, ◌+◌, ◌<◌, ◌≤◌, ◌^◌, slice_index_or, unwrap_or, IfSome};
ghost use Rattle.std.specs.Prelude.{Some, None, is_some, true, false, length, find, position};
ghost use Rattle.std.specs.Prelude.{if◌then◌else◌};
ghost use Rattle.std.specs.Option.{option_copied};
ghost use Rattle.std.specs.List.{position_or_len};
ghost use Rattle.region_mem.specs.Memory.{IsAccessSize};
ghost use Rattle.region_mem.specs.Areas.{AreInOrder, AreInside, IsCount, holds, is_open_from};
ghost use Rattle.region_mem.specs.Areas.{window_in, part_of, spans, nothing, byte_at, number_at};
ghost use Rattle.region_mem.specs.Areas.{with_number};

use crate::faults::Right;
use crate::region::Region;
use crate::walk;
use std::alloc::Allocator;

/// How many regions begin at an address or below it.
#[inline(always)]
fn count_up_to<A: Allocator>(regions: &[Region<A>], address: u64) -> usize
    requires { AreInOrder 0 regions.now }
    ensures split { IsCount address regions.now result }
    ensures inside { result ≤ length regions.now }
{
    regions.partition_point(|region| region.first() <= address)
}

/// The place of the region that holds the byte at an address.
#[inline(always)]
#[tactic(auto, using(crate::specs::SearchLemmas::search_found, crate::specs::SearchLemmas::search_none))]
fn place_of<A: Allocator>(regions: &[Region<A>], address: u64) -> Option<usize>
    requires { AreInOrder 0 regions.now }
    ensures { result ≡ position (holds address) regions.now }
{
    let count = count_up_to(regions, address);
    if count == 0 {
        return None;
    }
    let place = count - 1;
    if regions[place].holds(address) {
        Some(place)
    } else {
        None
    }
}

/// The place of the region that holds the byte at an address, or 0 where none does.
pub(crate) fn place_or_first<A: Allocator>(regions: &[Region<A>], address: u64) -> usize
    requires { AreInOrder 0 regions.now }
    ensures { result ≡ unwrap_or (position (holds address) regions.now) 0 }
{
    place_of(regions, address).unwrap_or(0)
}

/// The region that holds the byte at an address.
#[inline(always)]
#[tactic(auto, using(crate::specs::AccessLemmas::find_place, crate::specs::AccessLemmas::find_none))]
fn region_of<A: Allocator>(regions: &[Region<A>], address: u64) -> Option<&Region<A>>
    requires { AreInOrder 0 regions.now }
    ensures { option_copied result ≡ find (holds address) regions.now }
{
    match place_of(regions, address) {
        Some(place) => Some(&regions[place]),
        None => None,
    }
}

/// The byte at an address, whatever the rights.
#[tactic(auto, using(crate::specs::AccessLemmas::find_holds), unfolding(crate::specs::Areas::byte_at))]
pub(crate) fn byte<A: Allocator>(regions: &[Region<A>], address: u64) -> Option<u8>
    requires { AreInOrder 0 regions.now }
    ensures { result ≡ byte_at address regions.now }
{
    match region_of(regions, address) {
        Some(region) => Some(region.byte(address)),
        None => None,
    }
}

/// Whether one region holds all of an access, with the right.
#[tactic(auto, using(crate::specs::AccessLemmas::open_in_one, crate::proofs::WindowLemmas::window_told, crate::proofs::WindowLemmas::window_nowhere))]
fn one_permits<A: Allocator>(regions: &[Region<A>], right: Right, address: u64, size: u64) -> bool
    requires order { AreInOrder 0 regions.now }
    requires fits { address + size < 2 ^ 64 }
    ensures open { result ≡ true → is_open_from right address size regions.now ≡ true }
    ensures found { 0 < size → result ≡ is_some (window_in right address size regions.now) }
{
    match region_of(regions, address) {
        Some(region) => region.admits(right, address, size),
        None => false,
    }
}

/// Whether each byte of an access lies in a region with the right, and none past the last address.
pub(crate) fn permits<A: Allocator>(
    regions: &[Region<A>],
    right: Right,
    address: u64,
    size: u64,
) -> bool
    requires order { AreInOrder 0 regions.now }
    requires first { address < 2 ^ 32 }
    requires fits { size < 2 ^ 63 }
    ensures { result ≡ is_open_from right address size regions.now }
{
    one_permits(regions, right, address, size) || walk::permits(regions, right, address, size)
}

/// The number in the n bytes from an address on, the lowest first, where the region at this place has all of them, and
/// the right; `None` where it has not, or there is none.
#[inline(always)]
#[tactic(auto, using(crate::specs::AccessLemmas::found_there, crate::specs::AccessLemmas::open_in_one, crate::specs::AccessLemmas::number_in_one))]
pub(crate) fn number_at<A: Allocator>(
    regions: &[Region<A>],
    place: usize,
    right: Right,
    address: u64,
    n: usize,
) -> Option<u32>
    requires order { AreInOrder 0 regions.now }
    requires address { address < 2 ^ 32 }
    requires size { IsAccessSize n }
    ensures open { IfSome result (λ _. is_open_from right address n regions.now ≡ true) }
    ensures number { IfSome result (λ number. number ≡ number_at address n regions.now) }
{
    if place < regions.len() {
        regions[place].number_for(right, address, n)
    } else {
        None
    }
}

/// The number in the n bytes from an address on, the lowest first, where all of them may be accessed.
#[inline(always)]
#[tactic(auto, using(crate::specs::AccessLemmas::open_in_one, crate::specs::AccessLemmas::number_in_one))]
pub(crate) fn number<A: Allocator>(
    regions: &[Region<A>],
    right: Right,
    address: u64,
    n: usize,
) -> Option<u32>
    requires order { AreInOrder 0 regions.now }
    requires address { address < 2 ^ 32 }
    requires size { IsAccessSize n }
    ensures { result ≡ (if is_open_from right address n regions.now
        then Some (number_at address n regions.now) else None) }
{
    if let Some(region) = region_of(regions, address) {
        if let Some(number) = region.number_for(right, address, n) {
            return Some(number);
        }
    }
    number_by_bytes(regions, right, address, n)
}

#[inline(never)]
fn number_by_bytes<A: Allocator>(
    regions: &[Region<A>],
    right: Right,
    address: u64,
    n: usize,
) -> Option<u32>
    requires address { address < 2 ^ 32 }
    requires size { IsAccessSize n }
    ensures { result ≡ (if is_open_from right address n regions.now
        then Some (number_at address n regions.now) else None) }
{
    if walk::permits(regions, right, address, n as u64) {
        Some(walk::number(regions, address, n))
    } else {
        None
    }
}

/// Writes the n lowest bytes of a value from an address on, and tells whether each of them may be written. Where one
/// may not, nothing is.
#[inline(always)]
#[tactic(auto, using(crate::specs::AccessLemmas::open_at, crate::specs::AccessLemmas::goes_at, crate::specs::ExtentLemmas::number_order, crate::specs::ExtentLemmas::number_inside, crate::specs::AccessLemmas::admits_spans))]
pub(crate) fn set_number<A: Allocator>(
    regions: &mut [Region<A>],
    address: u64,
    n: usize,
    value: u32,
) -> bool
    requires order { AreInOrder 0 regions.old }
    requires inside { AreInside regions.old }
    requires address { address < 2 ^ 32 }
    requires size { IsAccessSize n }
    ensures value { result ≡ is_open_from Right.Write address n regions.old }
    ensures done { result ≡ true → regions.new ≡ with_number address n value regions.old }
    ensures refused { result ≡ false → regions.new ≡ regions.old }
    ensures order { AreInOrder 0 regions.new }
    ensures inside { AreInside regions.new }
{
    if let Some(place) = place_of(regions, address) {
        if regions[place].admits(Right::Write, address, n as u64) {
            regions[place].set_number(address, n, value);
            return true;
        }
    }
    set_by_bytes(regions, address, n, value)
}

#[inline(never)]
#[tactic(auto, using(crate::specs::ExtentLemmas::number_order, crate::specs::ExtentLemmas::number_inside))]
fn set_by_bytes<A: Allocator>(regions: &mut [Region<A>], address: u64, n: usize, value: u32) -> bool
    requires order { AreInOrder 0 regions.old }
    requires inside { AreInside regions.old }
    requires address { address < 2 ^ 32 }
    requires size { IsAccessSize n }
    ensures value { result ≡ is_open_from Right.Write address n regions.old }
    ensures done { result ≡ true → regions.new ≡ with_number address n value regions.old }
    ensures refused { result ≡ false → regions.new ≡ regions.old }
    ensures order { AreInOrder 0 regions.new }
    ensures inside { AreInside regions.new }
{
    if !walk::permits(regions, Right::Write, address, n as u64) {
        return false;
    }
    walk::set_number(regions, address, n, value);
    true
}

/// The n bytes from an address on, where one region has them all, and the right.
#[tactic(auto, using(crate::proofs::WindowLemmas::window_at, crate::proofs::WindowLemmas::window_nowhere))]
pub(crate) fn window<A: Allocator>(
    regions: &[Region<A>],
    right: Right,
    address: u64,
    n: usize,
) -> Option<&[u8]>
    requires order { AreInOrder 0 regions.now }
    requires address { address < 2 ^ 32 }
    requires some { 0 < n }
    requires fits { n < 2 ^ 63 }
    ensures { option_copied result ≡ window_in right address n regions.now }
{
    match region_of(regions, address) {
        Some(region) => region.part_for(right, address, n),
        None => None,
    }
}

/// The place of the region that has the n bytes from an address on, where one has them all and they may be written.
#[tactic(auto, using(crate::proofs::WindowWrites::window_spans, crate::proofs::LendLemmas::found_below, crate::proofs::LendLemmas::found_is, crate::proofs::LendLemmas::found_some, crate::proofs::LendLemmas::window_is))]
pub(crate) fn window_place<A: Allocator>(regions: &[Region<A>], address: u64, n: usize) -> usize
    requires order { AreInOrder 0 regions.now }
    requires address { address < 2 ^ 32 }
    requires some { 0 < n }
    requires has { is_some (window_in Right.Write address n regions.now) ≡ true }
    ensures place { result ≡ position_or_len (holds address) regions.now }
    ensures below { result < length regions.now }
    ensures inside { spans address n (slice_index_or regions.now result nothing) ≡ true }
    ensures part { window_in Right.Write address n regions.now
        ≡ Some (part_of address n (slice_index_or regions.now result nothing)) }
{
    match place_of(regions, address) {
        Some(place) => place,
        None => unreachable!(),
    }
}
