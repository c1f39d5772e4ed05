//! Where a run stopped, and what explains why.
ghost use Rattle.std.specs.Prelude.{◌≡◌, IfSome, string_bytes};
ghost use Rattle.rv_decode.specs.Decode.{meaning_of};
ghost use Rattle.rv_listing.specs.Listing.{listing_text};
ghost use Rattle.endings.specs.Stands.{before_lines, cause_lines, cause_text, illegal_lines};
ghost use Rattle.endings.specs.Stands.{place_line, place_text, stand_line, stand_text};

use check_reasons::{HeldVtype, Illegal, operands_in};
use elf_image::Image;
use region_mem::{Digits, Fault};
use rv_decode::decode;
use rv_listing::{Over, put_listing};
use sandbox_run::Registers;
use std::alloc::Global;
use std::fmt;

/// How a run ended.
#[derive(Clone, Copy)]
pub enum End {
    Ended,
    Trapped(Fault),
    OutOfSteps,
}

/// Where a run stopped: its pc, and the listing of the word there, where one can be fetched.
#[derive(Drop)]
pub struct Place {
    pub pc: u32,
    pub listing: Option<String>,
}

impl fmt::Display for Place {
    ghost use Rattle.std.specs.Prelude.{Some};
    ghost use Rattle.endings.specs.Stands.{place_text};

    ghost output = { λ place. Some (place_text place) };

    fn fmt<W: fmt::Write>(&self, f: &mut fmt::Formatter<W>) -> fmt::Result {
        let pc = Digits(u64::from(self.pc));
        match &self.listing {
            Some(listing) => writeln!(f, "  pc {pc}: {listing}"),
            None => writeln!(f, "  pc {pc}: no code"),
        }
    }
}

/// The listing of a word at an address, where memory suffices.
fn listing_of(alloc: Global, word: u32, pc: u32) -> Option<String>
    ensures { IfSome result (λ text. string_bytes text ≡ listing_text pc word) }
{
    let mut text = Over::new(Vec::new(alloc));
    match put_listing(&mut text, word, pc) {
        Ok(()) => {
            let bytes = text.into_inner();
            kept(alloc, bytes.as_slice())
        }
        Err(_) => None,
    }
}

/// The text that bytes spell, where memory suffices.
fn kept(alloc: Global, bytes: &[u8]) -> Option<String>
    ensures { IfSome result (λ text. string_bytes text ≡ bytes.now) }
{
    match std::str::from_utf8(bytes) {
        Ok(text) => match String::from_str(alloc, text) {
            Ok(text) => Some(text),
            Err(_) => None,
        },
        Err(_) => None,
    }
}

/// A place in an image, where memory suffices to list the word there.
fn place_at(alloc: Global, image: &Image, pc: u32) -> Option<Place>
    ensures { IfSome result (λ place. place_text place ≡ place_line image.now pc) }
{
    let Some(word) = image.code_at(pc) else {
        return Some(Place { pc, listing: None });
    };
    match listing_of(alloc, word, pc) {
        Some(text) => Some(Place {
            pc,
            listing: Some(text),
        }),
        None => None,
    }
}

/// What explains a fault that a run met.
#[derive(Drop)]
pub enum Cause {
    /// Nothing.
    Untold,
    /// The operands of an instruction that is not legal, and the vector length as it stood.
    Illegal { vl: u32, illegal: Illegal },
    /// Where the step was done that led to an address at which there is no code.
    Behind(Place),
}

impl fmt::Display for Cause {
    ghost use Rattle.std.specs.Prelude.{Some};
    ghost use Rattle.endings.specs.Stands.{cause_text};

    ghost output = { λ cause. Some (cause_text cause) };

    fn fmt<W: fmt::Write>(&self, f: &mut fmt::Formatter<W>) -> fmt::Result {
        match self {
            Cause::Untold => Ok(()),
            Cause::Illegal { vl, illegal } => write!(f, "  vl: {vl}\n{illegal}"),
            Cause::Behind(place) => write!(f, "  the step before:\n{place}"),
        }
    }
}

/// What explains that a word is not legal where these registers are: nothing for one that encodes no instruction.
fn illegal_at(registers: &Registers, word: u32) -> Cause
    ensures { cause_text result ≡ illegal_lines registers.now (meaning_of word) }
{
    match decode(word) {
        None => Cause::Untold,
        Some(insn) => Cause::Illegal {
            vl: registers.vl,
            illegal: operands_in(HeldVtype::from_bits(registers.vtype), &insn),
        },
    }
}

/// Where the last step of a run was done, if there was one, where memory suffices.
fn behind(alloc: Global, image: &Image, last: Option<u32>) -> Option<Cause>
    ensures { IfSome result (λ cause. cause_text cause ≡ before_lines image.now last) }
{
    let Some(pc) = last else {
        return Some(Cause::Untold);
    };
    let place = place_at(alloc, image, pc)?;
    Some(Cause::Behind(place))
}

/// What explains how a run of an image ended, in these registers, where memory suffices. Its last step was done at `last`.
fn cause_of(
    alloc: Global,
    image: &Image,
    last: Option<u32>,
    registers: &Registers,
    end: End,
) -> Option<Cause>
    ensures { IfSome result (λ cause.
        cause_text cause ≡ cause_lines image.now last registers.now end) }
{
    match end {
        End::Trapped(Fault::Illegal(word)) => Some(illegal_at(registers, word)),
        End::Trapped(Fault::FetchFault(_)) => behind(alloc, image, last),
        End::Trapped(Fault::LoadFault(_) | Fault::StoreFault(_) | Fault::JumpMisaligned(_))
        | End::Ended
        | End::OutOfSteps => Some(Cause::Untold),
    }
}

/// Where a run stopped, and what explains why.
#[derive(Drop)]
pub struct Stand {
    pub place: Place,
    pub cause: Cause,
}

impl fmt::Display for Stand {
    ghost use Rattle.std.specs.Prelude.{Some};
    ghost use Rattle.endings.specs.Stands.{stand_text};

    ghost output = { λ stand. Some (stand_text stand) };

    fn fmt<W: fmt::Write>(&self, f: &mut fmt::Formatter<W>) -> fmt::Result {
        let Stand { place, cause } = self;
        write!(f, "{place}{cause}")
    }
}

/// Where a run of an image stopped, in these registers, where memory suffices to tell it. Its last step was done at `last`.
pub fn stand_of(
    alloc: Global,
    image: &Image,
    last: Option<u32>,
    registers: &Registers,
    end: End,
) -> Option<Stand>
    ensures { IfSome result (λ stand.
        stand_text stand ≡ stand_line image.now last registers.now end) }
{
    let place = place_at(alloc, image, registers.pc)?;
    let cause = cause_of(alloc, image, last, registers, end)?;
    Some(Stand { place, cause })
}
