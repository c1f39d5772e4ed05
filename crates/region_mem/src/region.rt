//! A region of memory.
ghost use Rattle.std.specs.Prelude.{◌≡◌, ◌+◌, ◌<◌, ◌-◌, ◌≤◌, ◌^◌, IsTrue, IfSome, Some, None, true};
ghost use Rattle.std.specs.Prelude.{option_copied, if◌then◌else◌, length, slice_index, slice_set};
ghost use Rattle.std.specs.Borrow.{sem};

use crate::arguments::Bytes;
use crate::faults::Right;
use crate::layout::{BUFFERS, BUFFERS_END, STACK, STACK_SIZE};
use crate::stack::Stack;
use std::alloc::{Allocator, Global};
use std::marker::Model;

/// Bytes from an address on, and what may be done with them.
#[derive(Drop)]
pub struct Region<A: Allocator = Global> {
    first: u64,
    bytes: Bytes<A>,
    read: bool,
    write: bool,
    fetch: bool,
    // Of a stack, how many of the first bytes no write has come to. Contracts do not see it.
    untouched: usize,
}

impl<A: Allocator> Model for Region<A> {
    ghost use Rattle.std.specs.Prelude.{◌≡◌, ◌+◌, ◌≤◌, ◌^◌, length, take};
    ghost use Rattle.region_mem.specs.Areas.{Area};
    ghost use Rattle.region_mem.specs.Start.{zeros};

    ghost Value = { Area };

    ghost view = { λ r.
        record {
          first = r.first;
          bytes = r.bytes;
          read = r.read;
          write = r.write;
          fetch = r.fetch;
        } };

    // What no write has come to is 0 still.
    ghost invariant = { λ r. (r.first + length r.bytes ≤ 2 ^ 32)
        × (take r.untouched r.bytes ≡ zeros r.untouched) };
}

/// How many of the first bytes no write has come to, after one from an index on.
#[inline(always)]
fn left(untouched: usize, at: usize) -> usize
    ensures below { result ≤ untouched }
    ensures before { result ≤ at }
{
    untouched.min(at)
}

impl<A: Allocator> Region<A> {
    ghost use Rattle.region_mem.specs.Start.{stack_area};
    ghost use Rattle.region_mem.specs.Areas.{Area, holds, has_right, spans, admits, part_of};
    ghost use Rattle.region_mem.specs.Areas.{part_into, number_in, bytes_of};
    ghost use Rattle.region_mem.specs.Memory.{is_buffer_area, IsAccessSize};
    ghost use Rattle.region_mem.specs.Lends.{lends_area_part};

    pub(crate) fn new(
        first: u64,
        bytes: Bytes<A>,
        read: bool,
        write: bool,
        fetch: bool,
    ) -> Region<A>
        requires { first + length bytes ≤ 2 ^ 32 }
        ensures { result ≡ record {
          first = first;
          bytes = bytes;
          read = read;
          write = write;
          fetch = fetch;
        } }
    {
        Region {
            first,
            bytes,
            read,
            write,
            fetch,
            untouched: 0,
        }
    }

    /// The region of a run's stack.
    #[tactic(auto, unfolding(crate::specs::Start::stack_area))]
    pub(crate) fn of_stack(stack: Stack<A>) -> Region<A>
        ensures { result ≡ stack_area }
    {
        let bytes = stack.into_bytes();
        let untouched = bytes.len();
        Region {
            first: u64::from(STACK),
            bytes,
            read: true,
            write: true,
            fetch: false, // A stack holds no code.
            untouched,
        }
    }

    /// A stack for the next run, where this region is one's: what was written is cleared.
    pub(crate) fn into_stack(self) -> Option<Stack<A>> {
        let Region {
            mut bytes,
            untouched,
            ..
        } = self;
        if bytes.len() == STACK_SIZE as usize {
            bytes.clear_from(untouched);
            Some(Stack::of(bytes))
        } else {
            None
        }
    }

    pub(crate) fn first(&self) -> u64
        ensures { result ≡ self.now.first }
    {
        self.first
    }

    pub(crate) fn into_bytes(self) -> Bytes<A>
        ensures { result ≡ self.bytes }
    {
        let Region { bytes, .. } = self;
        bytes
    }

    #[tactic(auto, unfolding(crate::specs::Memory::is_buffer_area))]
    pub(crate) fn is_buffer(&self) -> bool
        ensures { result ≡ is_buffer_area self.now }
    {
        u64::from(BUFFERS) <= self.first && self.first < u64::from(BUFFERS_END)
    }

    #[inline(always)]
    #[tactic(auto, unfolding(crate::specs::Areas::holds))]
    pub(crate) fn holds(&self, address: u64) -> bool
        ensures { result ≡ holds address self.now }
    {
        self.first <= address && address < self.first + self.bytes.len() as u64
    }

    #[inline(always)]
    #[tactic(auto, unfolding(crate::specs::Areas::has_right))]
    pub(crate) fn has_right(&self, right: Right) -> bool
        ensures { result ≡ has_right right self.now }
    {
        match right {
            Right::Read => self.read,
            Right::Write => self.write,
            Right::Fetch => self.fetch,
        }
    }

    #[inline(always)]
    #[tactic(auto, unfolding(crate::specs::Areas::holds))]
    pub(crate) fn byte(&self, address: u64) -> u8
        requires { IsTrue (holds address self.now) }
        ensures { result ≡ slice_index self.now.bytes (address - self.now.first) }
    {
        self.bytes.as_slice()[(address - self.first) as usize]
    }

    #[tactic(auto, unfolding(crate::specs::Areas::holds))]
    pub(crate) fn set_byte(&mut self, address: u64, byte: u8)
        requires { IsTrue (holds address self.old) }
        ensures { self.new
            ≡ record self.old { bytes = slice_set self.old.bytes (address - self.old.first) byte } }
    {
        let at = (address - self.first) as usize;
        self.untouched = left(self.untouched, at);
        self.bytes.set(at, byte);
    }

    /// Whether the n bytes from an address on are all the region's, which has the right.
    #[inline(always)]
    #[tactic(auto, unfolding(crate::specs::Areas::spans, crate::specs::Areas::admits))]
    pub(crate) fn admits(&self, right: Right, address: u64, n: u64) -> bool
        requires { address + n < 2 ^ 64 }
        ensures value { result ≡ admits right address n self.now }
        ensures end { result ≡ true → address + n ≤ 2 ^ 32 }
    {
        self.first <= address
            && address + n <= self.first + self.bytes.len() as u64
            && self.has_right(right)
    }

    /// The number in the n bytes from an address on, the lowest first.
    #[inline(always)]
    #[tactic(auto, unfolding(crate::specs::Areas::spans, crate::specs::Areas::holds, crate::specs::Areas::number_in, crate::specs::Areas::number_of))]
    fn number(&self, address: u64, n: usize) -> u32
        requires low { address < 2 ^ 32 }
        requires size { IsAccessSize n }
        requires inside { IsTrue (spans address n self.now) }
        ensures { result ≡ number_in address n self.now }
    {
        let lowest = u32::from(self.byte(address));
        match n {
            1 => lowest,
            2 => lowest + 256 * u32::from(self.byte(address + 1)),
            _ => {
                let second = address + 1;
                let third = second + 1;
                let high = u32::from(self.byte(third)) + 256 * u32::from(self.byte(third + 1));
                lowest + 256 * (u32::from(self.byte(second)) + 256 * high)
            }
        }
    }

    /// The same, where the region has all of them and the right.
    #[inline(always)]
    #[tactic(auto, using(crate::specs::AccessLemmas::admits_spans))]
    pub(crate) fn number_for(&self, right: Right, address: u64, n: usize) -> Option<u32>
        requires low { address < 2 ^ 32 }
        requires size { IsAccessSize n }
        ensures number { IfSome result (λ number. number ≡ number_in address n self.now) }
        ensures admitted { IfSome result (λ number. admits right address n self.now ≡ true) }
        ensures end { IfSome result (λ number. address + n ≤ 2 ^ 32) }
    {
        if self.admits(right, address, n as u64) {
            Some(self.number(address, n))
        } else {
            None
        }
    }

    #[tactic(auto, unfolding(crate::specs::Areas::spans, crate::specs::Areas::part_of))]
    fn part(&self, address: u64, n: usize) -> &[u8]
        requires low { address < 2 ^ 32 }
        requires inside { IsTrue (spans address n self.now) }
        ensures { result.now ≡ part_of address n self.now }
    {
        let at = (address - self.first) as usize;
        &self.bytes.as_slice()[at..at + n]
    }

    /// The n bytes from an address on, where the region has all of them and the right.
    #[tactic(auto, using(crate::specs::AccessLemmas::admits_spans))]
    pub(crate) fn part_for(&self, right: Right, address: u64, n: usize) -> Option<&[u8]>
        requires low { address < 2 ^ 32 }
        requires fits { n < 2 ^ 63 }
        ensures { option_copied result
            ≡ (if admits right address n self.now then Some (part_of address n self.now)
            else None) }
    {
        if self.admits(right, address, n as u64) {
            Some(self.part(address, n))
        } else {
            None
        }
    }

    /// The n bytes from an address on, to be written.
    #[tactic(auto, unfolding(crate::specs::Areas::spans, crate::specs::Areas::part_of))]
    pub(crate) fn part_mut(&mut self, address: u64, n: usize) -> &mut [u8]
        requires low { address < 2 ^ 32 }
        requires inside { IsTrue (spans address n self.old) }
        ensures* lent { sem 𝓛 (lends_area_part A.row A.Allocator self.entry address result) }
        ensures value { result.now ≡ part_of address n self.old }
        ensures len { length result.now ≡ n }
    {
        let at = (address - self.first) as usize;
        self.untouched = left(self.untouched, at);
        self.bytes.part_mut(at, n)
    }

    /// Writes these bytes from an address on.
    #[tactic(auto, unfolding(crate::specs::Areas::spans, crate::specs::Areas::part_into))]
    pub(crate) fn set_part(&mut self, address: u64, bytes: &[u8])
        requires low { address < 2 ^ 32 }
        requires inside { IsTrue (spans address (length bytes.now) self.old) }
        ensures { self.new ≡ part_into address bytes.now self.old }
    {
        let at = (address - self.first) as usize;
        self.untouched = left(self.untouched, at);
        self.bytes.set_part(at, bytes);
    }

    /// Writes the n lowest bytes of a value from an address on.
    #[tactic(auto, using(crate::specs::PartLemmas::one_byte, crate::specs::PartLemmas::two_bytes, crate::specs::PartLemmas::four_bytes))]
    pub(crate) fn set_number(&mut self, address: u64, n: usize, value: u32)
        requires low { address < 2 ^ 32 }
        requires size { IsAccessSize n }
        requires inside { IsTrue (spans address n self.old) }
        ensures { self.new ≡ part_into address (bytes_of n value) self.old }
    {
        let bytes = value.to_le_bytes();
        match n {
            1 => self.set_part(address, &bytes[..1]),
            2 => self.set_part(address, &bytes[..2]),
            _ => self.set_part(address, &bytes),
        }
    }
}
