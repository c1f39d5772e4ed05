//! The zones of memory, and accesses that stay in one of them.
ghost use Rattle.std.specs.Prelude.{◌≡◌, ◌+◌, ◌<◌, ◌≤◌, ◌++◌};
ghost use Rattle.std.specs.List.{list_any};
ghost use Rattle.std.specs.Option.{option_to_list};
ghost use Rattle.arrayvec.specs.ArrayVec.{array_vec_len};
ghost use Rattle.region_mem.specs.declared.faults.Right.TheVariants.{Read, Write};
ghost use Rattle.abs_domain.specs.Zones.{segment_zone as segment_zone_of};
ghost use Rattle.abs_domain.specs.Zones.{stack_zone as stack_zone_of};
ghost use Rattle.abs_domain.specs.Zones.{buffer_zone, buffer_zones, is_inside, may_write, spans};
ghost use Rattle.abs_domain.specs.Zones.{zones_of};
ghost use Rattle.abs_domain.specs.Zones.{load_allowed as load_allowed_of};
ghost use Rattle.abs_domain.specs.Zones.{store_allowed as store_allowed_of};

use crate::why::Why;
use arrayvec::ArrayVec;
use elf_image::{Image, Segment};
use region_mem::{Mode, Param, Parameters, STACK, STACK_SIZE};
use std::alloc::Allocator;

/// The addresses from `first` on and below `end`, and what may be done there throughout a run.
#[derive(Clone, Copy, Default, PartialEq, Eq)]
pub struct Zone {
    pub first: u64,
    pub end: u64,
    pub read: bool,
    pub write: bool,
}

impl Zone {
    /// Whether all addresses from `first` on and below `end` are the zone's.
    #[tactic(auto, unfolding(crate::specs::Zones::spans))]
    fn spans(&self, first: u64, end: u64) -> bool
        ensures { result ≡ spans first end self.now }
    {
        self.first <= first && end <= self.end
    }
}

/// The zone of a segment.
#[tactic(auto, unfolding(crate::specs::Zones::segment_zone))]
fn segment_zone<A: Allocator>(segment: &Segment<A>) -> Zone
    ensures { result ≡ segment_zone_of segment.now }
{
    let first = u64::from(segment.address());
    let rights = segment.rights();
    Zone {
        first,
        end: first + u64::from(segment.memory_size()),
        read: rights.read,
        write: rights.write,
    }
}

/// The zone of the stack.
#[tactic(auto, unfolding(crate::specs::Zones::stack_zone))]
fn stack_zone() -> Zone
    ensures { result ≡ stack_zone_of }
{
    Zone {
        first: u64::from(STACK),
        end: u64::from(STACK) + u64::from(STACK_SIZE),
        read: true,
        write: true,
    }
}

/// Whether a buffer of this mode may be written.
fn may_write(mode: Mode) -> bool
    ensures { result ≡ may_write mode }
{
    match mode {
        Mode::Read => false,
        Mode::ReadWrite => true,
    }
}

/// The zone of the buffer that a parameter at a place asks for, if it asks for one.
#[tactic(auto, unfolding(crate::specs::Zones::buffer_zone))]
fn buffer_zone(parameters: &Parameters, place: usize, param: Param) -> Option<Zone>
    ensures { result ≡ buffer_zone parameters.now place param }
{
    match param {
        Param::None | Param::Scalar { lo: _, hi: _ } => None,
        Param::Buffer { mode, size } => {
            let first = u64::from(parameters.address(place).unwrap_or(0));
            Some(Zone {
                first,
                end: first + u64::from(size),
                read: true,
                write: may_write(mode),
            })
        }
    }
}

/// Appends a zone, if there is one.
fn add(zones: &mut ArrayVec<Zone, 25>, zone: Option<Zone>)
    requires { array_vec_len zones.old < 25 }
    ensures items { zones.new.items ≡ zones.old.items ++ option_to_list zone }
    ensures len { array_vec_len zones.new ≤ array_vec_len zones.old + 1 }
{
    if let Some(zone) = zone {
        zones.push(zone);
    }
}

/// Appends the zones of the buffers.
fn add_buffers(zones: &mut ArrayVec<Zone, 25>, parameters: &Parameters)
    requires { array_vec_len zones.old ≤ 17 }
    ensures { zones.new.items ≡ zones.old.items ++ buffer_zones parameters.now 0 parameters.now }
{
    let params = parameters.to_array();
    for (place, param) in params.iter().enumerate() {
        add(zones, buffer_zone(parameters, place, *param));
    }
}

/// The zones of a run of an image with these parameters: its segments, the stack, and the buffers that the parameters ask
/// for, which have their addresses and sizes from the parameters alone.
#[tactic(auto, unfolding(crate::specs::Zones::zones_of))]
pub fn memory_zones<A: Allocator>(image: &Image<A>, parameters: &Parameters) -> ArrayVec<Zone, 25>
    ensures { result.items ≡ zones_of image.now parameters.now }
{
    let mut zones = ArrayVec::new();
    for segment in image.segments() {
        zones.push(segment_zone(segment));
    }
    zones.push(stack_zone());
    add_buffers(&mut zones, parameters);
    zones
}

/// Whether a zone has the addresses from `first` on and below `end`, and may be read.
#[tactic(auto, unfolding(crate::specs::Zones::is_inside, crate::specs::Zones::zone_right))]
fn is_readable(first: u64, end: u64, zones: &[Zone]) -> bool
    ensures { result ≡ is_inside Read first end zones.now }
{
    zones.iter().any(|zone| zone.spans(first, end) && zone.read)
}

/// Whether a zone has these addresses, and may be written.
#[tactic(auto, unfolding(crate::specs::Zones::is_inside, crate::specs::Zones::zone_right))]
fn is_writable(first: u64, end: u64, zones: &[Zone]) -> bool
    ensures { result ≡ is_inside Write first end zones.now }
{
    zones
        .iter()
        .any(|zone| zone.spans(first, end) && zone.write)
}

/// Whether a zone has these addresses, whatever its rights.
fn is_one_zone(first: u64, end: u64, zones: &[Zone]) -> bool
    ensures { result ≡ list_any (spans first end) zones.now }
{
    zones.iter().any(|zone| zone.spans(first, end))
}

/// The answer on a load whose bytes lie from `first` on and below `end`: they have to lie in one zone that may be read.
#[tactic(auto, unfolding(crate::specs::Zones::load_allowed))]
pub fn load_allowed(first: u64, end: u64, zones: &[Zone]) -> Result<(), Why>
    ensures { result ≡ load_allowed_of first end zones.now }
{
    if is_readable(first, end, zones) {
        Ok(())
    } else {
        Err(Why::AccessNotProved)
    }
}

/// The answer on a store whose bytes lie from `first` on and below `end`: they have to lie in one zone that may be written.
#[tactic(auto, unfolding(crate::specs::Zones::store_allowed))]
pub fn store_allowed(first: u64, end: u64, zones: &[Zone]) -> Result<(), Why>
    ensures { result ≡ store_allowed_of first end zones.now }
{
    if is_writable(first, end, zones) {
        Ok(())
    } else if is_one_zone(first, end, zones) {
        Err(Why::ReadOnly)
    } else {
        Err(Why::AccessNotProved)
    }
}
