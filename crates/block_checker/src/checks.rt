//! The check, word by word and block by block.
ghost use Rattle.std.specs.Prelude.{◌≡◌, ◌≤◌, ◌<◌, ◌+◌, ◌^◌, ◌||◌, is_some, length, option_copied};
ghost use Rattle.std.specs.Prelude.{Err, IfErr, IsOk, None, Ok, Some, false, true};
ghost use Rattle.std.specs.List.{slice_get};
ghost use Rattle.std.specs.List.Sorted.{IsNonDecreasingBy};
ghost use Rattle.cert_note.specs.declared.values.Block.{Block};
ghost use Rattle.abs_state.specs.Blocks.{at_entry_of};
ghost use Rattle.abs_state.specs.Branches.{refined};
ghost use Rattle.abs_state.specs.StepLaws.{jumps};
ghost use Rattle.block_checker.specs.Passes.{block_at as block_at_of, block_for as block_for_of};
ghost use Rattle.block_checker.specs.Passes.{is_branch as is_branch_of};
ghost use Rattle.block_checker.specs.Passes.{edge_passes as edge_passes_of};
ghost use Rattle.block_checker.specs.Passes.{possible_passes as possible_passes_of};
ghost use Rattle.block_checker.specs.Passes.{edges_pass as edges_pass_of, followed as followed_of};
ghost use Rattle.block_checker.specs.Passes.{word_passes as word_passes_of, walk as walk_of};
ghost use Rattle.block_checker.specs.Passes.{block_passes as block_passes_of};
ghost use Rattle.block_checker.specs.Passes.{blocks_pass as blocks_pass_of};
ghost use Rattle.block_checker.specs.Passes.{both, entry_passes as entry_passes_of};
ghost use Rattle.block_checker.specs.Passes.{checked as checked_of};
ghost use Rattle.block_checker.specs.Accepted.{IsAnswer};
ghost use Rattle.block_checker.specs.Explained.{IsReached, IsStopped, is_end};
ghost use Rattle.block_checker.specs.Walking.{IsCountBelow, is_exit, is_fork_exit, progress_of};
ghost use Rattle.block_checker.specs.Walking.{IsFault, StopsWalk, fault_answer, halt_answer};
ghost use Rattle.block_checker.specs.Walking.{told_of};
ghost use Rattle.block_checker.specs.Refusals.{IsAt};

use crate::errors::{CheckError, told};
use crate::refused::{Halt, Kept, Part, Stop};
use abs_state::{Abstract, Edge, MOST_WORDS, implies};
use cert_note::{Block, Certificate};
use elf_image::Image;
use rv_decode::{Insn, ScalarInsn, decode, integer_computation, vector_arithmetic};
use scalar_core::EXIT;
use std::alloc::Allocator;
use vreg_groups::Vlen;

/// Whether a block goes on to the next word.
#[derive(Clone, Copy, PartialEq, Eq)]
pub(crate) enum Told {
    Ended,
    On,
}

/// Where the check stops in its room, with its error. What is known there is in the room.
#[derive(Clone, Copy, PartialEq, Eq)]
pub(crate) struct Fault {
    pub(crate) error: CheckError,
    pub(crate) part: Part,
    pub(crate) pc: u32,
    pub(crate) kept: Kept,
}

/// How many blocks begin below an address.
fn count_below(blocks: &[Block], address: u32) -> usize
    requires { IsNonDecreasingBy (λ block. block.start) blocks.now }
    ensures split { IsCountBelow address blocks.now result }
    ensures inside { result ≤ length blocks.now }
{
    blocks.partition_point(|block| block.start < address)
}

/// The block that begins at an address, by a search: blocks rise by their starts.
#[tactic(auto, using(crate::proofs::SearchLemmas::found_there))]
fn find_block(blocks: &[Block], address: u32) -> Option<&Block>
    requires { IsNonDecreasingBy (λ block. block.start) blocks.now }
    ensures { option_copied result ≡ block_at_of address blocks.now }
{
    let place = count_below(blocks, address);
    if place < blocks.len() && blocks[place].start == address {
        Some(&blocks[place])
    } else {
        None
    }
}

/// The block of a certificate that begins at an address.
#[tactic(auto, using(crate::proofs::SearchLemmas::blocks_rise))]
pub(crate) fn block_at<C: Allocator>(certificate: &Certificate<C>, address: u32) -> Option<&Block>
    ensures { option_copied result ≡ block_at_of address certificate.now.blocks }
{
    let contents = certificate.contents();
    find_block(&contents.blocks, address)
}

/// The block to which an edge leads; none where it ends the run.
#[tactic(auto, unfolding(crate::specs::Passes::block_for))]
fn block_for<C: Allocator>(certificate: &Certificate<C>, target: Option<u32>) -> Option<&Block>
    ensures { option_copied result ≡ block_for_of target certificate.now.blocks }
{
    match target {
        None => None,
        Some(EXIT) => None,
        Some(address) => block_at(certificate, address),
    }
}

/// How a word leads on.
#[derive(Clone, Copy, PartialEq, Eq)]
pub(crate) enum Exits {
    /// To the next word alone.
    Next,
    /// Elsewhere, one way: a jump or ecall.
    Jump,
    /// Two ways: a branch.
    Fork,
}

#[tactic(auto, unfolding(crate::specs::Passes::is_branch, crate::specs::Passes::is_branch_insn, abs_state::specs::StepLaws::jumps))]
fn exits_of(insn: &Insn) -> Exits
    ensures branch { is_fork_exit result ≡ is_branch_of insn.now }
    ensures jump { is_exit result ≡ jumps insn.now }
{
    match *insn {
        Insn::Scalar(insn) => match insn {
            ScalarInsn::Branch { .. } => Exits::Fork,
            ScalarInsn::Jal { .. } | ScalarInsn::Jalr { .. } | ScalarInsn::Ecall => Exits::Jump,
            ScalarInsn::Load { .. }
            | ScalarInsn::Store { .. }
            | ScalarInsn::Fence
            | integer_computation!() => Exits::Next,
        },
        Insn::Csr(_) | Insn::VSet(_) | Insn::VMem(_) | vector_arithmetic!() => Exits::Next,
    }
}

/// Whether the word is a branch, which has two ways out.
fn is_branch(insn: &Insn) -> bool
    ensures { result ≡ is_branch_of insn.now }
{
    match exits_of(insn) {
        Exits::Fork => true,
        Exits::Next | Exits::Jump => false,
    }
}

/// Whether the word ends a block: a branch, a jump or ecall.
fn is_jump(insn: &Insn) -> bool
    ensures { result ≡ jumps insn.now }
{
    match exits_of(insn) {
        Exits::Jump | Exits::Fork => true,
        Exits::Next => false,
    }
}

/// What an edge has to show of the block to which it leads, or of the end of the run.
#[tactic(auto, unfolding(crate::specs::Passes::edge_passes))]
pub(crate) fn edge_passes<A: Allocator, C: Allocator>(
    certificate: &Certificate<C>,
    pc: u32,
    edge: &Edge<'_, A>,
) -> Result<(), CheckError>
    ensures value { result ≡ edge_passes_of certificate.now pc edge.now }
    ensures at { IfErr result (IsAt pc) }
{
    match implies(edge, block_for(certificate, edge.target())) {
        Ok(()) => Ok(()),
        Err(why) => Err(told(why, pc)),
    }
}

/// As [`edge_passes`], of the edge out of the last word, for a branch the one where it is taken or where it isn't. An edge
/// that can't be taken passes.
#[tactic(auto, unfolding(crate::specs::Passes::possible_passes))]
pub(crate) fn possible_passes<A: Allocator, C: Allocator>(
    certificate: &Certificate<C>,
    pc: u32,
    state: &Abstract<A>,
    taken: bool,
) -> Result<(), CheckError>
    ensures value { result ≡ possible_passes_of certificate.now pc (refined taken state.now) }
    ensures at { IfErr result (IsAt pc) }
{
    match state.refine(taken) {
        None => Ok(()),
        Some(edge) => edge_passes(certificate, pc, &edge),
    }
}

/// The edges out of the word at pc, of a branch the one where it is taken first.
#[tactic(auto, unfolding(crate::specs::Passes::edges_pass))]
fn edges_pass<A: Allocator, C: Allocator>(
    certificate: &Certificate<C>,
    pc: u32,
    insn: &Insn,
    state: &Abstract<A>,
) -> Result<(), CheckError>
    ensures value { result ≡ edges_pass_of certificate.now pc insn.now state.now }
    ensures at { IfErr result (IsAt pc) }
{
    if is_branch(insn) {
        possible_passes(certificate, pc, state, true)?;
    }
    possible_passes(certificate, pc, state, false)
}

/// Whether a block ends behind the word at pc: with a branch, a jump or ecall, or before the next block.
fn ends_block<C: Allocator>(certificate: &Certificate<C>, pc: u32, insn: &Insn) -> bool
    requires { pc + 4 < 2 ^ 32 }
    ensures { result ≡ (jumps insn.now || is_some (block_at_of (pc + 4) certificate.now.blocks)) }
{
    is_jump(insn) || block_at(certificate, pc + 4).is_some()
}

/// What comes after a word that is allowed.
#[tactic(auto, unfolding(crate::specs::Passes::followed))]
fn followed<A: Allocator, C: Allocator>(
    certificate: &Certificate<C>,
    pc: u32,
    insn: &Insn,
    state: &Abstract<A>,
) -> Result<Told, CheckError>
    requires { pc + 4 < 2 ^ 32 }
    ensures value { told_of result state.now
        ≡ followed_of certificate.now pc insn.now (Ok state.now) }
    ensures at { IfErr result (IsAt pc) }
{
    if !ends_block(certificate, pc, insn) {
        return Ok(Told::On);
    }
    edges_pass(certificate, pc, insn, state)?;
    Ok(Told::Ended)
}

/// The word at pc. Where it is refused, the answer tells whether it was taken: what is known is that before it, or behind.
#[tactic(auto, unfolding(crate::specs::Passes::word_passes, crate::specs::Passes::fetched, crate::specs::Passes::decoded, crate::specs::Passes::followed, crate::specs::Explained::behind_word))]
fn word_passes<A: Allocator, B: Allocator, C: Allocator>(
    image: &Image<B>,
    certificate: &Certificate<C>,
    pc: u32,
    state: &mut Abstract<A>,
) -> Result<Told, (CheckError, Kept)>
    requires { state.old.words < MOST_WORDS }
    ensures value { progress_of result state.new
        ≡ word_passes_of image.now certificate.now pc state.old }
    ensures kept { IfErr result (λ e. IsReached image.now pc e.1 (Some state.old) state.new) }
    ensures word { IfErr result (λ e. is_end e.1 ≡ false) }
    ensures at { IfErr result (λ e. IsAt pc e.0) }
    ensures counts { result ≡ Ok Told.On → state.new.words ≡ state.old.words + 1 }
    ensures low { IsOk result → pc + 4 ≤ 0xC000_0000 }
{
    let Some(word) = image.code_at(pc) else {
        return Err((CheckError::NotCode(pc), Kept::Before));
    };
    let Some(insn) = decode(word) else {
        return Err((CheckError::IllegalWord(pc), Kept::Before));
    };
    match state.after(pc, &insn) {
        Err(why) => Err((told(why, pc), Kept::Before)),
        Ok(()) => match followed(certificate, pc, &insn, state) {
            Ok(told) => Ok(told),
            Err(error) => Err((error, Kept::Behind)),
        },
    }
}

/// The words of a block from its start on, with what is known there.
#[tactic(auto, using(crate::proofs::Walks::walk_more, crate::proofs::Walks::walk_ended, crate::proofs::Walks::walk_refused, crate::proofs::Walks::walk_none, crate::proofs::Explaining::known_first, crate::proofs::Explaining::known_next))]
fn walk<A: Allocator, B: Allocator, C: Allocator>(
    image: &Image<B>,
    certificate: &Certificate<C>,
    start: u32,
    state: &mut Abstract<A>,
) -> Result<(), Fault>
    requires { state.old.words ≡ 0 }
    ensures answer { fault_answer result
        ≡ walk_of image.now certificate.now MOST_WORDS start state.old }
    ensures stop { IfErr result (λ f.
        StopsWalk image.now certificate.now start state.old f state.new) }
{
    let mut pc = start;
    let part = Part::Block(start);
    for _steps in 0..MOST_WORDS {
        match word_passes(image, certificate, pc, state) {
            Err((error, kept)) => {
                return Err(Fault {
                    error,
                    part,
                    pc,
                    kept,
                });
            }
            Ok(Told::Ended) => return Ok(()),
            Ok(Told::On) => pc += 4,
        }
    }
    Err(Fault {
        error: CheckError::BlockTooLong(pc),
        part,
        pc,
        kept: Kept::End,
    })
}

/// The block at a place of the certificate's list. `state` is room for what is known: what it held is lost.
fn block_passes<A: Allocator, B: Allocator, C: Allocator>(
    image: &Image<B>,
    certificate: &Certificate<C>,
    index: usize,
    state: &mut Abstract<A>,
) -> Result<(), Fault>
    requires { index < length certificate.now.blocks }
    ensures answer { (block : Block) → slice_get certificate.now.blocks index ≡ Some block
        → fault_answer result ≡ block_passes_of image.now certificate.now block }
    ensures stop { IfErr result (λ f. IsFault image.now certificate.now f state.new) }
{
    let start = certificate.contents().blocks[index].start;
    state.set_block(certificate, image, index);
    walk(image, certificate, start, state)
}

/// Each block, in the order of the list, with `state` as room.
fn blocks_pass<A: Allocator, B: Allocator, C: Allocator>(
    image: &Image<B>,
    certificate: &Certificate<C>,
    state: &mut Abstract<A>,
) -> Result<(), Fault>
    ensures answer { fault_answer result
        ≡ blocks_pass_of image.now certificate.now certificate.now.blocks }
    ensures stop { IfErr result (λ f. IsFault image.now certificate.now f state.new) }
{
    for index in 0..certificate.contents().blocks.len() {
        if let Err(fault) = block_passes(image, certificate, index, state) {
            return Err(fault);
        }
    }
    Ok(())
}

/// The way from the start of a run into the block at the entry.
#[tactic(auto, unfolding(crate::specs::Passes::entry_passes, crate::specs::Passes::entry_passes_to))]
fn entry_passes<A: Allocator, B: Allocator, C: Allocator>(
    image: &Image<B>,
    certificate: &Certificate<C>,
    state: &Abstract<A>,
) -> Result<(), Fault>
    requires state { state.now ≡ at_entry_of image.now certificate.now }
    requires there { is_some (block_at_of image.now.entry certificate.now.blocks) ≡ true }
    ensures answer { fault_answer result ≡ entry_passes_of image.now certificate.now }
    ensures stop { IfErr result (λ f. IsFault image.now certificate.now f state.now) }
{
    let pc = image.entry();
    match possible_passes(certificate, pc, state, false) {
        Ok(()) => Ok(()),
        Err(error) => Err(Fault {
            error,
            part: Part::Entry,
            pc,
            kept: Kept::Behind,
        }),
    }
}

/// The entry, then each block, with `state`, where a run begins, as room.
fn parts_pass<A: Allocator, B: Allocator, C: Allocator>(
    image: &Image<B>,
    certificate: &Certificate<C>,
    state: &mut Abstract<A>,
) -> Result<(), Fault>
    requires state { state.old ≡ at_entry_of image.now certificate.now }
    requires there { is_some (block_at_of image.now.entry certificate.now.blocks) ≡ true }
    ensures answer { fault_answer result ≡ both (entry_passes_of image.now certificate.now)
        (blocks_pass_of image.now certificate.now certificate.now.blocks) }
    ensures stop { IfErr result (λ f. IsFault image.now certificate.now f state.new) }
{
    match entry_passes(image, certificate, state) {
        Ok(()) => blocks_pass(image, certificate, state),
        Err(fault) => Err(fault),
    }
}

/// An error that stands at no word.
fn nowhere<A: Allocator>(error: CheckError) -> Result<(), Halt<A>>
    ensures { result ≡ Err record { error = error; stop = None } }
{
    Err(Halt { error, stop: None })
}

/// All of the check, in room that is taken once: [`check`](crate::check) of an image that stays where it is.
///
/// # Errors
/// As of [`check_kept`](crate::check_kept).
#[tactic(auto, unfolding(crate::specs::Passes::checked, crate::specs::Passes::entry_passes, crate::specs::Passes::entry_passes_to))]
pub fn checked<A: Allocator + Copy, B: Allocator, C: Allocator>(
    alloc: A,
    image: &Image<B>,
    certificate: &Certificate<C>,
    vlen: Vlen,
) -> Result<(), Halt<A>>
    ensures answer { IsAnswer (halt_answer result) (checked_of image.now certificate.now vlen) }
    ensures stop { IfErr result (λ h. IsStopped image.now certificate.now h.error h.stop) }
{
    if certificate.contents().vlen.bytes() != vlen.bytes() {
        return nowhere(CheckError::WrongVlen);
    }
    if block_at(certificate, image.entry()).is_none() {
        return nowhere(CheckError::NoEntryBlock);
    }
    let Ok(mut state) = Abstract::at_entry(alloc, certificate, image) else {
        return nowhere(CheckError::NoMemory);
    };
    match parts_pass(image, certificate, &mut state) {
        Ok(()) => Ok(()),
        Err(fault) => Err(Halt {
            error: fault.error,
            stop: Some(Stop {
                part: fault.part,
                pc: fault.pc,
                kept: fault.kept,
                state,
            }),
        }),
    }
}
