//! The caller's eight arguments.
ghost use Rattle.std.specs.Prelude.{◌≡◌, All, ◌+◌, ◌<◌, ◌≤◌, ◌++◌, length, take, drop, slice_set};
ghost use Rattle.std.specs.Prelude.{◌==◌, ◌-◌, replicate};
ghost use Rattle.std.specs.Borrow.{sem};

use std::alloc::{Allocator, Global};
use std::marker::Model;

fn are_bytes(bytes: &[u8])
    ensures { All (λ byte. byte < 256) bytes.now }
{
    let _ = bytes;
}

/// The bytes of a buffer, in a vector that is moved in and out and never copied. `A` is its allocator.
#[derive(Drop)]
pub struct Bytes<A: Allocator = Global> {
    items: Vec<u8, A>,
}

impl<A: Allocator> Model for Bytes<A> {
    ghost use Rattle.std.specs.Prelude.{List, ℕ};

    ghost Value = { List ℕ };

    ghost view = { λ b. b.items.items };
}

impl<A: Allocator> Bytes<A> {
    ghost use Rattle.region_mem.specs.Lends.{lends_part};

    /// These bytes.
    pub fn new(items: Vec<u8, A>) -> Bytes<A>
        ensures { result ≡ items.items }
    {
        Bytes { items }
    }

    /// The vector that holds the bytes.
    pub fn into_vec(self) -> Vec<u8, A>
        ensures { result.items ≡ self }
    {
        let Bytes { items: vector } = self;
        vector
    }

    /// The bytes in order.
    pub fn as_slice(&self) -> &[u8]
        ensures { result.now ≡ self.now }
    {
        self.items.as_slice()
    }

    /// How many bytes there are.
    pub fn len(&self) -> usize
        ensures { result ≡ length self.now }
    {
        self.items.len()
    }

    /// Whether there is no byte.
    pub fn is_empty(&self) -> bool
        ensures { result ≡ (length self.now == 0) }
    {
        self.items.is_empty()
    }

    /// Each of them is below 256: a proof hears it here.
    pub(crate) fn are_bytes(&self)
        ensures { All (λ byte. byte < 256) self.now }
    {
        are_bytes(self.items.as_slice());
    }

    pub(crate) fn set(&mut self, index: usize, byte: u8)
        requires { index < length self.old }
        ensures { self.new ≡ slice_set self.old index byte }
    {
        self.items[index] = byte;
    }

    /// Clears the bytes from an index on.
    pub(crate) fn clear_from(&mut self, at: usize)
        requires { at ≤ length self.old }
        ensures { self.new ≡ take at self.old ++ replicate (length self.old - at) 0 }
    {
        self.items[at..].fill(0);
    }

    /// The n bytes from an index on, to be written.
    #[tactic(auto, unfolding(crate::specs::Areas::overlaid))]
    pub(crate) fn part_mut(&mut self, at: usize, n: usize) -> &mut [u8]
        requires { at + n ≤ length self.old }
        ensures* lent { sem 𝓛 (lends_part A.row A.Allocator self.entry at result) }
        ensures value { result.now ≡ take n (drop at self.old) }
        ensures len { length result.now ≡ n }
    {
        self.items.slice_mut(at..at + n)
    }

    /// Puts these bytes in the place of as many from an index on.
    pub(crate) fn set_part(&mut self, at: usize, bytes: &[u8])
        requires { at + length bytes.now ≤ length self.old }
        ensures { self.new ≡ take at self.old ++ bytes.now
            ++ drop (at + length bytes.now) self.old }
    {
        self.items[at..at + bytes.len()].copy_from_slice(bytes);
    }
}

/// What a caller passes at one place, a buffer as `B`.
#[derive(Drop)]
pub enum Arg<B = Bytes> {
    None,
    Scalar(u32),
    Buffer(B),
}

/// What a caller passes, by place. Place `n` is handed over in register a`n`.
#[derive(Drop)]
pub struct Args<B = Bytes> {
    pub places: [Arg<B>; 8],
}

impl<B> Args<B> {
    /// No argument at any place, into which those that there are can be put.
    pub fn none() -> Args<B>
        ensures { result.places ≡ replicate 8 Arg.None }
    {
        let places = [
            Arg::None,
            Arg::None,
            Arg::None,
            Arg::None,
            Arg::None,
            Arg::None,
            Arg::None,
            Arg::None,
        ];
        Args { places }
    }
}

/// What a place was passed, without a buffer's bytes.
#[derive(Clone, Copy, PartialEq, Eq)]
pub enum Passed {
    None,
    Scalar(u32),
    Buffer,
}
