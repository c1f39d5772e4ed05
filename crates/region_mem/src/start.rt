//! The regions that a run starts with.
ghost use Rattle.std.specs.Prelude.{◌≡◌, ◌+◌, ◌<◌, ◌≤◌, ◌^◌, [], ◌∷◌, IfOk, length, map, vec_len};
ghost use Rattle.std.specs.Prelude.{vec_capacity, nat_lt, position, ◌==◌};
ghost use Rattle.std.specs.List.{position_or_len};
ghost use Rattle.elf_image.specs.Image.{SegmentView, ImageView, IsSegment};
ghost use Rattle.std.specs.List.{AllByRecursion};
ghost use Rattle.std.specs.Prelude.{◌++◌, filter, IfNone};
ghost use Rattle.std.specs.Option.{option_to_list};
ghost use Rattle.std.specs.Vec.Iter.{into_iter_items};
ghost use Rattle.region_mem.specs.Memory.{is_buffer_area, arg_with, left_after, args_with};
ghost use Rattle.region_mem.specs.Areas.{Area};
ghost use Rattle.region_mem.specs.Start.{zeros, segment_area, stack_area, insert_area};
ghost use Rattle.region_mem.specs.Start.{insert_areas, is_writable, buffer_area, buffer_areas};
ghost use Rattle.region_mem.specs.Start.{passed_of};
ghost use Rattle.region_mem.specs.Parameter.{size_of};

use crate::arguments::{Arg, Args, Bytes, Passed};
use crate::layout::{MAX_BUFFER_SIZE, STACK};
use crate::parameter::{Mode, Param, Parameters};
use crate::region::Region;
use crate::stack::Stack;
use elf_image::{Image, Segment};
use std::alloc::{AllocError, Allocator};
use std::vec::IntoIter;

/// Puts a region in front of those that begin above it.
#[tactic(auto, using(crate::proofs::Order::insert_area_at))]
pub(crate) fn insert<A: Allocator>(regions: &mut Vec<Region<A>, A>, region: Region<A>)
    requires { vec_len regions.old < vec_capacity regions.old }
    ensures items { regions.new.items ≡ insert_area region regions.old.items }
    ensures len { vec_len regions.new ≡ vec_len regions.old + 1 }
    ensures capacity { vec_capacity regions.old ≤ vec_capacity regions.new }
{
    let place = place_for(regions.as_slice(), region.first());
    regions.insert(place, region).unwrap();
}

/// The place of the first region that begins above an address, or the end.
fn place_for<A: Allocator>(regions: &[Region<A>], address: u64) -> usize
    ensures value { result ≡ position_or_len (λ other. nat_lt address other.first) regions.now }
    ensures inside { result ≤ length regions.now }
{
    match first_above(regions, address) {
        Some(place) => place,
        None => regions.len(),
    }
}

fn first_above<A: Allocator>(regions: &[Region<A>], address: u64) -> Option<usize>
    ensures { result ≡ position (λ other. nat_lt address other.first) regions.now }
{
    regions.iter().position(|other| address < other.first())
}

/// A segment's bytes from the file, then zeros.
#[tactic(auto, unfolding(crate::specs::Start::segment_area, crate::specs::Start::zeros))]
fn segment_region<A: Allocator, B: Allocator>(
    alloc: A,
    segment: &Segment<B>,
) -> Result<Region<A>, AllocError>
    ensures { IfOk result (λ region. region ≡ segment_area segment.now) }
{
    let size = segment.memory_size() as usize;
    let rights = segment.rights();
    let mut bytes = Vec::with_capacity(alloc, size)?;
    bytes.extend_from_slice(segment.bytes())?;
    bytes.resize(size, 0)?;
    Ok(Region::new(
        u64::from(segment.address()),
        Bytes::new(bytes),
        rights.read,
        rights.write,
        rights.execute,
    ))
}

/// The segments' regions and the stack's, with room for eight buffers more; or want of memory, and the stack.
pub(crate) fn fixed_regions<A: Allocator + Copy, B: Allocator>(
    alloc: A,
    image: &Image<B>,
    stack: Stack<A>,
) -> Result<Vec<Region<A>, A>, (AllocError, Stack<A>)>
    ensures items { IfOk result (λ v.
        v.items ≡ insert_area stack_area (insert_areas (map segment_area image.now.segments) [])) }
    ensures room { IfOk result (λ v. vec_len v + 8 ≤ vec_capacity v) }
{
    match segment_regions(alloc, image.segments()) {
        Ok(mut regions) => {
            insert(&mut regions, Region::of_stack(stack));
            Ok(regions)
        }
        Err(error) => Err((error, stack)),
    }
}

#[tactic(auto, using(crate::proofs::Order::insert_areas_more, crate::proofs::Order::insert_areas_all))]
fn segment_regions<A: Allocator + Copy, B: Allocator>(
    alloc: A,
    segments: &[Segment<B>],
) -> Result<Vec<Region<A>, A>, AllocError>
    requires { length segments.now ≤ 16 }
    ensures items { IfOk result (λ v. v.items ≡ insert_areas (map segment_area segments.now) []) }
    ensures room { IfOk result (λ v. vec_len v + 9 ≤ vec_capacity v) }
{
    let mut regions = Vec::with_capacity(alloc, segments.len() + 9)?;
    for segment in segments {
        let region = segment_region(alloc, segment)?;
        insert(&mut regions, region);
    }
    Ok(regions)
}

#[tactic(auto, unfolding(crate::specs::Start::is_writable))]
fn is_writable(param: Param) -> bool
    ensures { result ≡ is_writable param }
{
    match param {
        Param::Buffer { mode, .. } => match mode {
            Mode::Read => false,
            Mode::ReadWrite => true,
        },
        Param::None | Param::Scalar { .. } => false,
    }
}

#[tactic(auto, unfolding(crate::specs::Start::buffer_area))]
fn buffer_region<A: Allocator>(parameters: &Parameters, place: usize, bytes: Bytes<A>) -> Region<A>
    requires place { place < 8 }
    requires small { length bytes ≤ MAX_BUFFER_SIZE }
    ensures { result ≡ buffer_area parameters.now place bytes }
{
    let first = parameters.address(place).unwrap_or(0);
    let writable = is_writable(parameters.param(place));
    Region::new(u64::from(first), bytes, true, writable, false)
}

#[tactic(auto, unfolding(crate::specs::Start::buffer_areas, crate::specs::Start::insert_areas, crate::specs::Parameter::size_of))]
fn put<A: Allocator>(
    regions: &mut Vec<Region<A>, A>,
    parameters: &Parameters,
    place: usize,
    arg: Arg<Bytes<A>>,
)
    requires room { vec_len regions.old < vec_capacity regions.old }
    requires place { place < 8 }
    requires small { size_of arg ≤ MAX_BUFFER_SIZE }
    ensures items { regions.new.items
        ≡ insert_areas (buffer_areas parameters.now place (arg ∷ [])) regions.old.items }
    ensures len { vec_len regions.new ≤ vec_len regions.old + 1 }
    ensures capacity { vec_capacity regions.old ≤ vec_capacity regions.new }
{
    match arg {
        Arg::Buffer(bytes) => insert(regions, buffer_region(parameters, place, bytes)),
        Arg::None | Arg::Scalar(_) => (),
    }
}

pub(crate) fn put_all<A: Allocator>(
    regions: &mut Vec<Region<A>, A>,
    parameters: &Parameters,
    args: Args<Bytes<A>>,
)
    requires room { vec_len regions.old + 8 ≤ vec_capacity regions.old }
    requires small { AllByRecursion (λ arg. size_of arg ≤ MAX_BUFFER_SIZE) args.places }
    ensures { regions.new.items
        ≡ insert_areas (buffer_areas parameters.now 0 args.places) regions.old.items }
{
    let Args {
        places: [a, b, c, d, e, f, g, h],
    } = args;
    put(regions, parameters, 0, a);
    put(regions, parameters, 1, b);
    put(regions, parameters, 2, c);
    put(regions, parameters, 3, d);
    put(regions, parameters, 4, e);
    put(regions, parameters, 5, f);
    put(regions, parameters, 6, g);
    put(regions, parameters, 7, h);
}

#[tactic(auto, unfolding(crate::specs::Start::passed_of))]
fn passed_of<A: Allocator>(arg: &Arg<Bytes<A>>) -> Passed
    ensures { result ≡ passed_of arg.now }
{
    match arg {
        Arg::None => Passed::None,
        Arg::Scalar(value) => Passed::Scalar(*value),
        Arg::Buffer(_) => Passed::Buffer,
    }
}

/// What the places were passed, without the buffers' bytes.
pub(crate) fn passed<A: Allocator>(args: &Args<Bytes<A>>) -> [Passed; 8]
    ensures { result ≡ map passed_of args.now.places }
{
    let [a, b, c, d, e, f, g, h] = &args.places;
    [
        passed_of(a),
        passed_of(b),
        passed_of(c),
        passed_of(d),
        passed_of(e),
        passed_of(f),
        passed_of(g),
        passed_of(h),
    ]
}

/// Where the stack's region is.
fn stack_place<A: Allocator>(regions: &[Region<A>]) -> Option<usize>
    ensures { result ≡ position (λ area. area.first == STACK) regions.now }
{
    regions
        .iter()
        .position(|region| region.first() == u64::from(STACK))
}

/// Takes the stack out, where it is there.
pub(crate) fn take_stack<A: Allocator>(regions: &mut Vec<Region<A>, A>) -> Option<Stack<A>>
    ensures { filter is_buffer_area regions.new.items ≡ filter is_buffer_area regions.old.items }
{
    let place = stack_place(regions.as_slice())?;
    regions.remove(place).into_stack()
}

/// The next of the regions that is a buffer's.
fn next_buffer<A: Allocator>(regions: &mut IntoIter<Region<A>, A>) -> Option<Region<A>>
    ensures next { filter is_buffer_area (into_iter_items regions.old) ≡ option_to_list result
        ++ filter is_buffer_area (into_iter_items regions.new) }
    ensures none { IfNone result (filter is_buffer_area (into_iter_items regions.old) ≡ []) }
{
    while let Some(region) = regions.next() {
        if region.is_buffer() {
            return Some(region);
        }
    }
    None
}

/// What a place gets of the buffers that are left.
#[tactic(auto, unfolding(crate::specs::Memory::arg_with, crate::specs::Memory::left_after))]
fn arg_with<A: Allocator>(place: Passed, regions: &mut IntoIter<Region<A>, A>) -> Arg<Bytes<A>>
    ensures value { result ≡ arg_with place (filter is_buffer_area (into_iter_items regions.old)) }
    ensures left { filter is_buffer_area (into_iter_items regions.new)
        ≡ left_after place (filter is_buffer_area (into_iter_items regions.old)) }
{
    match place {
        Passed::None => Arg::None,
        Passed::Scalar(value) => Arg::Scalar(value),
        Passed::Buffer => match next_buffer(regions) {
            Some(region) => Arg::Buffer(region.into_bytes()),
            None => Arg::None,
        },
    }
}

/// The arguments whose buffers these regions hold, in the order of their places.
#[tactic(auto, unfolding(crate::specs::Memory::args_with))]
pub(crate) fn args_with<A: Allocator>(
    passed: [Passed; 8],
    mut regions: IntoIter<Region<A>, A>,
) -> Args<Bytes<A>>
    ensures { result.places ≡ args_with passed (filter is_buffer_area (into_iter_items regions)) }
{
    let [a, b, c, d, e, f, g, h] = passed;
    let a = arg_with(a, &mut regions);
    let b = arg_with(b, &mut regions);
    let c = arg_with(c, &mut regions);
    let d = arg_with(d, &mut regions);
    let e = arg_with(e, &mut regions);
    let f = arg_with(f, &mut regions);
    let g = arg_with(g, &mut regions);
    let h = arg_with(h, &mut regions);
    Args {
        places: [a, b, c, d, e, f, g, h],
    }
}
