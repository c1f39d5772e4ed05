//! Why an image is refused: where its check stopped, and what was known there.
ghost use Rattle.std.specs.Prelude.{◌≡◌, ◌<◌, length, IfSome};
ghost use Rattle.block_checker.specs.Explained.{if_refused as if_refused_of};
ghost use Rattle.block_checker.specs.Explained.{place_in, refused_edge as refused_edge_of};
ghost use Rattle.abs_state.specs.Branches.{refined};

use crate::checks::edge_passes;
use crate::errors::CheckError;
use abs_state::{Abstract, Edge};
use cert_note::Certificate;
use elf_image::Image;
use std::alloc::{Allocator, Global};

/// A part of the check.
#[derive(Clone, Copy, PartialEq, Eq)]
pub enum Part {
    /// The way from the start of a run into the block at the entry.
    Entry,
    /// The walk of the block that begins at this address.
    Block(u32),
}

/// The place at which a stop's state is known.
#[derive(Clone, Copy, PartialEq, Eq)]
pub enum Kept {
    /// Before a word that is refused.
    Before,
    /// Behind a word with a refused way out, or where a run begins.
    Behind,
    /// Behind the last word of a block that is too long.
    End,
}

/// Where a check stopped.
#[derive(Drop)]
pub struct Stop<A: Allocator = Global> {
    /// The part of the check that stopped.
    pub part: Part,
    /// The address of the word at which it stopped: the image's entry on the way into the first block, and of a block
    /// that is too long the address behind its last word.
    pub pc: u32,
    /// The place at which the state is known.
    pub kept: Kept,
    /// What is known there.
    pub state: Abstract<A>,
}

/// The check's error, and where it stopped.
#[derive(Drop)]
pub struct Halt<A: Allocator = Global> {
    /// The check's error.
    pub error: CheckError,
    /// Where the check stopped. There is no such place for an error without an address.
    pub stop: Option<Stop<A>>,
}

/// The place of a stop, without what is known there.
#[derive(Clone, Copy, PartialEq, Eq)]
pub struct Spot {
    /// The part of the check that stopped.
    pub part: Part,
    /// The address of the word at which it stopped.
    pub pc: u32,
    /// The place at which the stop's state is known.
    pub kept: Kept,
    /// The word there, if there is code.
    pub word: Option<u32>,
}

/// The check's error, and the place where it stopped.
#[derive(Clone, Copy, PartialEq, Eq)]
pub struct Explanation {
    /// The check's error.
    pub error: CheckError,
    /// Where the check stopped.
    pub stop: Option<Spot>,
}

/// A refused image with its certificate: the check's error, and where it stopped. `A` is the allocator of what is known
/// there, `B` the image's and the certificate's.
#[derive(Drop)]
pub struct Refused<A: Allocator = Global, B: Allocator = Global> {
    /// The check's error.
    pub error: CheckError,
    /// Where the check stopped. There is no such place for an error without an address.
    pub stop: Option<Stop<A>>,
    /// The image, as it was passed.
    pub image: Image<B>,
    /// The certificate, as it was passed.
    pub certificate: Certificate<B>,
}

/// The place in a certificate's list of the block that begins at an address.
#[tactic(auto, unfolding(crate::specs::Explained::place_in))]
pub fn place_of<C: Allocator>(certificate: &Certificate<C>, address: u32) -> Option<usize>
    ensures place { result ≡ place_in address certificate.now.blocks }
    ensures inside { IfSome result (λ index. index < length certificate.now.blocks) }
{
    let blocks = certificate.contents().blocks.as_slice();
    blocks.iter().position(|block| block.start == address)
}

/// The way out where a branch is taken, or where it isn't, if it is refused.
#[tactic(auto, unfolding(crate::specs::Explained::if_refused))]
fn refused_when<'a, A: Allocator, C: Allocator>(
    certificate: &Certificate<C>,
    pc: u32,
    state: &'a Abstract<A>,
    taken: bool,
) -> Option<Edge<'a, A>>
    ensures { result ≡ if_refused_of certificate.now pc (refined taken state.now) }
{
    let edge = state.refine(taken)?;
    match edge_passes(certificate, pc, &edge) {
        Ok(()) => None,
        Err(_) => Some(edge),
    }
}

/// The way out of a state that is refused, of a branch the one where it is taken first.
#[tactic(auto, unfolding(crate::specs::Explained::refused_edge))]
pub fn refused_edge<'a, A: Allocator, C: Allocator>(
    certificate: &Certificate<C>,
    pc: u32,
    state: &'a Abstract<A>,
) -> Option<Edge<'a, A>>
    ensures { result ≡ refused_edge_of certificate.now pc state.now }
{
    match refused_when(certificate, pc, state, true) {
        Some(edge) => Some(edge),
        None => refused_when(certificate, pc, state, false),
    }
}
