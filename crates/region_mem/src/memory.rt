//! The memory of a run.
ghost use Rattle.std.specs.Prelude.{◌≡◌, ◌<◌, ◌^◌, length, Some, None, true, false, if◌then◌else◌};
ghost use Rattle.std.specs.Prelude.{IfOk, IfErr, option_copied};
ghost use Rattle.std.specs.Borrow.{sem};

use crate::arguments::{Args, Bytes, Passed};
use crate::faults::Right;
use crate::laws::lent_windows_are_written;
use crate::parameter::Parameters;
use crate::region::Region;
use crate::stack::Stack;
use crate::{areas, start};
use elf_image::Image;
use std::alloc::{AllocError, Allocator, Global};
use std::marker::Model;

/// The memory of a run, all of it from the allocator `A`.
#[derive(Drop)]
pub struct Regions<A: Allocator = Global> {
    regions: Vec<Region<A>, A>,
    passed: [Passed; 8],
    // The place of the region where `fetch_next` looks first. Contracts do not see it.
    recent: usize,
}

impl<A: Allocator> Model for Regions<A> {
    ghost use Rattle.region_mem.specs.Memory.{Memory};
    ghost use Rattle.region_mem.specs.Areas.{ArePlaced};

    ghost Value = { Memory };

    ghost view = { λ r. record { areas = r.regions.items; passed = r.passed } };

    // The regions stand in order, and none passes the last address.
    ghost invariant = { λ r. ArePlaced r.regions.items };
}

impl<A: Allocator> Regions<A> {
    ghost use Rattle.region_mem.specs.Memory.{Memory, byte_of, is_permitted, load_of, store_of};
    ghost use Rattle.region_mem.specs.Memory.{fetch_of, args_of, window_of, has_window};
    ghost use Rattle.region_mem.specs.Memory.{with_window, IsAccessSize};
    ghost use Rattle.region_mem.specs.Areas.{ArePlaced, window_in};
    ghost use Rattle.region_mem.specs.Lends.{lends_window};
    ghost use Rattle.region_mem.specs.Start.{start_memory};
    ghost use Rattle.region_mem.specs.Parameter.{AreArguments};

    /// The memory that a run of the image starts with: its segments, the stack and the buffers of the arguments, which
    /// are moved in. `alloc` gives the memory of the segments and the stack. Where it is refused the arguments come back
    /// as they were.
    pub fn new<B: Allocator>(
        alloc: A,
        image: &Image<B>,
        parameters: &Parameters,
        args: Args<Bytes<A>>,
    ) -> Result<Regions<A>, (AllocError, Args<Bytes<A>>)>
    where
        A: Copy,
        requires { AreArguments parameters.now args.places }
        ensures start { IfOk result (λ regions.
            regions ≡ start_memory image.now parameters.now args.places) }
        ensures back { IfErr result (λ e. e.1 ≡ args) }
    {
        let stack = match Stack::new(alloc) {
            Ok(stack) => stack,
            Err(error) => return Err((error, args)),
        };
        match Regions::on(alloc, image, parameters, args, stack) {
            Ok(regions) => Ok(regions),
            Err((error, args, _stack)) => Err((error, args)),
        }
    }

    /// The same on a stack that is there already. Where memory is refused it comes back too.
    #[tactic(auto, unfolding(crate::specs::Start::start_memory, crate::specs::Start::start_areas))]
    pub fn on<B: Allocator>(
        alloc: A,
        image: &Image<B>,
        parameters: &Parameters,
        args: Args<Bytes<A>>,
        stack: Stack<A>,
    ) -> Result<Regions<A>, (AllocError, Args<Bytes<A>>, Stack<A>)>
    where
        A: Copy,
        requires { AreArguments parameters.now args.places }
        ensures start { IfOk result (λ regions.
            regions ≡ start_memory image.now parameters.now args.places) }
        ensures back { IfErr result (λ e. e.1 ≡ args) }
    {
        match start::fixed_regions(alloc, image, stack) {
            Ok(mut regions) => {
                parameters.sizes_are_bounded(&args);
                parameters.start_is_placed(image, &args);
                let passed = start::passed(&args);
                start::put_all(&mut regions, parameters, args);
                Ok(Regions {
                    regions,
                    passed,
                    recent: 0,
                })
            }
            Err((error, stack)) => Err((error, args, stack)),
        }
    }

    /// The regions stand in order, and none passes the last address.
    pub(crate) fn is_placed(&self)
        ensures { ArePlaced self.now.areas }
    {
        let _regions = &self.regions;
    }

    /// The arguments: the buffers as they stand, moved out, and all else as it was passed.
    #[tactic(auto, unfolding(crate::specs::Memory::args_of))]
    pub fn into_args(self) -> Args<Bytes<A>>
        ensures { result.places ≡ args_of self }
    {
        let Regions {
            regions,
            passed,
            ..
        } = self;
        start::args_with(passed, regions.into_iter())
    }

    /// The same, and the stack for the next run, cleared as far as it was written.
    #[tactic(auto, unfolding(crate::specs::Memory::args_of))]
    pub fn into_parts(self) -> (Args<Bytes<A>>, Option<Stack<A>>)
        ensures { result.0.places ≡ args_of self }
    {
        let Regions {
            mut regions,
            passed,
            ..
        } = self;
        let stack = start::take_stack(&mut regions);
        (start::args_with(passed, regions.into_iter()), stack)
    }

    /// The byte at an address, whatever the rights; None where no region holds it.
    #[tactic(auto, unfolding(crate::specs::Memory::byte_of))]
    pub fn byte(&self, address: u32) -> Option<u8>
        ensures { result ≡ byte_of address self.now }
    {
        areas::byte(self.regions.as_slice(), u64::from(address))
    }

    /// Whether each byte of an access lies in a region with the right, and none past the last address.
    #[tactic(auto, unfolding(crate::specs::Memory::is_permitted))]
    pub fn permits(&self, right: Right, address: u32, size: usize) -> bool
        requires { size < 2 ^ 63 }
        ensures { result ≡ is_permitted right address size self.now }
    {
        areas::permits(
            self.regions.as_slice(),
            right,
            u64::from(address),
            size as u64,
        )
    }

    /// The number in the n bytes from an address on, the lowest first; None where one of them may not be read. n is 1,
    /// 2 or 4.
    #[tactic(auto, unfolding(crate::specs::Memory::load_of, crate::specs::Memory::is_permitted))]
    pub fn load(&self, address: u32, n: usize) -> Option<u32>
        requires { IsAccessSize n }
        ensures { result ≡ load_of address n self.now }
    {
        areas::number(self.regions.as_slice(), Right::Read, u64::from(address), n)
    }

    /// The word at pc, the lowest byte first; None where one of its bytes may not be fetched.
    #[tactic(auto, unfolding(crate::specs::Memory::fetch_of, crate::specs::Memory::is_permitted))]
    pub fn fetch(&self, pc: u32) -> Option<u32>
        ensures { result ≡ fetch_of pc self.now }
    {
        areas::number(self.regions.as_slice(), Right::Fetch, u64::from(pc), 4)
    }

    /// The same, where the region in which such a word was found last is looked at first.
    #[inline(always)]
    #[tactic(auto, unfolding(crate::specs::Memory::fetch_of, crate::specs::Memory::is_permitted))]
    pub fn fetch_next(&mut self, pc: u32) -> Option<u32>
        ensures word { result ≡ fetch_of pc self.old }
        ensures kept { self.new ≡ self.old }
    {
        let regions = self.regions.as_slice();
        match areas::number_at(regions, self.recent, Right::Fetch, u64::from(pc), 4) {
            Some(word) => Some(word),
            None => self.fetch_anew(pc),
        }
    }

    /// The same by a search. The next call begins where it ended.
    #[inline(never)]
    fn fetch_anew(&mut self, pc: u32) -> Option<u32>
        ensures word { result ≡ fetch_of pc self.old }
        ensures kept { self.new ≡ self.old }
    {
        self.recent = areas::place_or_first(self.regions.as_slice(), u64::from(pc));
        self.fetch(pc)
    }

    /// The n bytes from an address on, where one region has them all and they may be read. n is at least 1.
    #[tactic(auto, unfolding(crate::specs::Memory::window_of))]
    pub fn window(&self, address: u32, n: usize) -> Option<&[u8]>
        requires some { 0 < n }
        requires fits { n < 2 ^ 63 }
        ensures { option_copied result ≡ window_of address n self.now }
    {
        areas::window(self.regions.as_slice(), Right::Read, u64::from(address), n)
    }

    /// Whether one region has all of the n bytes from an address on, and they may be written. n is at least 1.
    #[tactic(auto, unfolding(crate::specs::Memory::has_window))]
    pub fn has_window(&self, address: u32, n: usize) -> bool
        requires some { 0 < n }
        requires fits { n < 2 ^ 63 }
        ensures { result ≡ has_window address n self.now }
    {
        areas::window(self.regions.as_slice(), Right::Write, u64::from(address), n).is_some()
    }

    /// The n bytes from an address on, to be written, where `has_window` told that they may be. n is at least 1.
    #[tactic(auto, unfolding(crate::specs::Memory::has_window))]
    pub fn window_mut(&mut self, address: u32, n: usize) -> &mut [u8]
        requires some { 0 < n }
        requires fits { n < 2 ^ 63 }
        requires has { has_window address n self.old ≡ true }
        ensures* lent { sem 𝓛 (lends_window A.row A.Allocator self.entry address result) }
        ensures value { Some result.now ≡ window_in Right.Write address n self.old.areas }
        ensures len { length result.now ≡ n }
    {
        let first = u64::from(address);
        let place = areas::window_place(self.regions.as_slice(), first, n);
        self.regions[place].part_mut(first, n)
    }

    /// Writes these bytes, one at least, from an address on, where `has_window` told that they may be written.
    pub fn set_window(&mut self, address: u32, bytes: &[u8])
        requires some { 0 < length bytes.now }
        requires has { has_window address (length bytes.now) self.old ≡ true }
        ensures { self.new ≡ with_window address bytes.now self.old }
    {
        lent_windows_are_written(self);
        self.window_mut(address, bytes.len()).copy_from_slice(bytes);
    }

    /// Writes the n lowest bytes of a value from an address on, and tells whether each of them may be written. Where one
    /// may not, nothing is. n is 1, 2 or 4.
    #[tactic(auto, unfolding(crate::specs::Memory::store_of, crate::specs::Memory::is_permitted))]
    pub fn store(&mut self, address: u32, n: usize, value: u32) -> bool
        requires { IsAccessSize n }
        ensures meaning { (if result then Some self.new else None)
            ≡ store_of address n value self.old }
        ensures refused { result ≡ false → self.new ≡ self.old }
    {
        areas::set_number(self.regions.as_mut_slice(), u64::from(address), n, value)
    }
}
