//! The loops for which certificates are made, word by word.
ghost use Rattle.std.specs.Prelude.{◌≡◌, ◌≤◌, ◌+◌, ◌*◌, IsSome, IsOk, IfOk, ok_or};
ghost use Rattle.std.specs.Option.{option_and_then};
ghost use Rattle.cert_maker.specs.declared.loops.Reading.TheVariants.{Works};
ghost use Rattle.cert_maker.specs.Loops.{count_by as count_by_of, insn_at as insn_at_of};
ghost use Rattle.cert_maker.specs.Loops.{is_return as is_return_of, length_by as length_by_of};
ghost use Rattle.cert_maker.specs.Loops.{loop_from as loop_from_of, loop_of as loop_of_of};
ghost use Rattle.cert_maker.specs.Loops.{next_of as next_of_of, return_by as return_by_of};

use crate::instructions::{count_by, length_by, next_of};
use elf_image::Image;
use region_mem::Parameters;
use rv_decode::{Insn, Reg, ScalarInsn, Width, decode};
use std::alloc::Allocator;

/// What the first branch says.
#[derive(Clone, Copy, PartialEq, Eq)]
pub struct Head {
    /// The register that counts the elements that are left.
    pub count: Reg,
    /// The greatest number that is passed in it.
    pub most: u32,
    /// The address to which the branch leads.
    pub end: u32,
}

/// What is known of a loop once its first two words are read.
#[derive(Clone, Copy, PartialEq, Eq)]
pub struct Loop {
    /// The register that counts the elements that are left.
    pub count: Reg,
    /// The greatest number that is passed in it.
    pub most: u32,
    /// The register that vsetvli writes vl to.
    pub length: Reg,
    /// Bits 7 to 0 of vtype.
    pub vtype: u32,
    /// How wide an element is.
    pub sew: Width,
    /// Whether each argument register was a pointer so far, by place: a0 (x10) to a7 (x17).
    pub pointers: [bool; 8],
    /// The address to which the first branch leads.
    pub end: u32,
}

/// Where the reading of a loop stands.
#[derive(Clone, Copy, PartialEq, Eq)]
pub enum Reading {
    /// Among the vector instructions.
    Works(Loop),
    /// Among the moves of pointers, by the bytes in a register.
    Moves {
        of: Loop,
        step: Reg,
        /// The pointers that are not yet moved, by place.
        left: [bool; 8],
    },
    /// At the branch back.
    Back(Loop),
    /// Behind the branch back.
    Through(Loop),
}

/// The instruction at an address of code.
#[tactic(auto, unfolding(crate::specs::Loops::insn_at))]
fn insn_at<A: Allocator>(image: &Image<A>, pc: u32) -> Option<Insn>
    ensures value { result ≡ insn_at_of pc image.now }
    ensures low { IsSome result → pc + 4 ≤ 0xC000_0000 }
{
    let word = image.code_at(pc)?;
    decode(word)
}

/// A word of the loop.
#[tactic(auto, unfolding(crate::specs::Loops::next_of))]
fn read_word<A: Allocator>(
    image: &Image<A>,
    parameters: &Parameters,
    start: u32,
    pc: u32,
    reading: &Reading,
) -> Option<Reading>
    ensures value { result ≡ option_and_then (next_of_of parameters.now start pc reading.now)
        (insn_at_of pc image.now) }
    ensures low { IsSome result → pc + 4 ≤ 0xC000_0000 }
{
    let insn = insn_at(image, pc)?;
    next_of(parameters, start, pc, reading, &insn)
}

/// The words of a loop from its second one on.
#[tactic(auto, using(crate::proofs::ReadLoops::read_more, crate::proofs::ReadLoops::read_through, crate::proofs::ReadLoops::read_refused, crate::proofs::ReadLoops::read_none))]
fn read_loop<A: Allocator>(
    image: &Image<A>,
    parameters: &Parameters,
    start: u32,
    of: Loop,
) -> Result<(Loop, u32), u32>
    requires { start + 4 ≤ 0xC000_0000 }
    ensures value { result ≡ loop_from_of image.now parameters.now start 0x3000_0000 (start + 4)
        (Works of) }
    ensures low { IfOk result (λ x. start + 4 * x.1 ≤ 0xC000_0000) }
{
    let mut pc = start + 4;
    let mut reading = Reading::Works(of);
    for _words in 0..0x3000_0000u32 {
        let Some(next) = read_word(image, parameters, start, pc, &reading) else {
            return Err(pc);
        };
        if let Reading::Through(of) = next {
            return Ok((of, (pc - start) / 4 + 1));
        }
        reading = next;
        pc += 4;
    }
    Err(pc)
}

/// The first word.
fn head_at<A: Allocator>(image: &Image<A>, parameters: &Parameters, pc: u32) -> Result<Head, u32>
    ensures value { result ≡ ok_or
        (option_and_then (count_by_of parameters.now pc) (insn_at_of pc image.now)) pc }
    ensures low { IsOk result → pc + 4 ≤ 0xC000_0000 }
{
    let Some(insn) = insn_at(image, pc) else {
        return Err(pc);
    };
    count_by(parameters, pc, &insn).ok_or(pc)
}

/// The second word.
fn length_at<A: Allocator>(image: &Image<A>, head: &Head, pc: u32) -> Result<Loop, u32>
    ensures value { result ≡ ok_or
        (option_and_then (length_by_of head.now) (insn_at_of pc image.now)) pc }
    ensures low { IsOk result → pc + 4 ≤ 0xC000_0000 }
{
    let Some(insn) = insn_at(image, pc) else {
        return Err(pc);
    };
    length_by(head, &insn).ok_or(pc)
}

/// `ret`.
#[tactic(auto, unfolding(crate::specs::Loops::is_return))]
fn is_return(insn: &Insn) -> bool
    ensures { result ≡ is_return_of insn.now }
{
    let Insn::Scalar(ScalarInsn::Jalr { rd, rs1, offset }) = insn else {
        return false;
    };
    rd.number() == 0 && rs1.number() == 1 && offset.cast_unsigned() == 0
}

/// The last word.
fn return_at<A: Allocator>(image: &Image<A>, pc: u32) -> Result<Insn, u32>
    ensures { result ≡ ok_or (option_and_then return_by_of (insn_at_of pc image.now)) pc }
{
    let Some(insn) = insn_at(image, pc) else {
        return Err(pc);
    };
    if is_return(&insn) { Ok(insn) } else { Err(pc) }
}

/// The loop at an image's entry, and how many instructions it has, or the address of the first word that does not fit.
#[tactic(auto, unfolding(crate::specs::Loops::loop_of))]
pub fn loop_of<A: Allocator>(image: &Image<A>, parameters: &Parameters) -> Result<(Loop, u32), u32>
    ensures value { result ≡ loop_of_of image.now parameters.now }
    ensures low { IfOk result (λ x. image.now.entry + 4 + 4 * x.1 ≤ 0xC000_0000) }
{
    let entry = image.entry();
    let head = head_at(image, parameters, entry)?;
    let of = length_at(image, &head, entry + 4)?;
    let (of, words) = read_loop(image, parameters, entry + 4, of)?;
    let _ret = return_at(image, entry + 4 + 4 * words)?;
    Ok((of, words))
}
