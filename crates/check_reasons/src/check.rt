//! Why an image is refused with its certificate: the word at which the check stopped, what was known there, and what
//! was wanted.
ghost use Rattle.std.specs.Prelude.{◌≡◌, IfOk, IfSome, option_map};
ghost use Rattle.block_checker.specs.Explained.{Explains, IsStopped, answer_of};
ghost use Rattle.block_checker.specs.Passes.{checked as checked_of};
ghost use Rattle.elf_image.specs.Image.{code_at};
ghost use Rattle.rv_decode.specs.Decode.{meaning_of};
ghost use Rattle.std.specs.Option.{option_and_then};
ghost use Rattle.check_reasons.specs.Check.{IsAccess, IsListed, IsWanted, IsWantedBy, IsWantedHere};
ghost use Rattle.check_reasons.specs.Check.{explanation_of, if_edge, kept_of, spot_of, state_of};
ghost use Rattle.check_reasons.specs.Check.{illegal_at as illegal_at_of, vtype_rule, word_in};
ghost use Rattle.check_reasons.specs.Check.{word_of};
ghost use Rattle.check_reasons.specs.Edge.{edge_from};

use crate::access::{Access, buffer_places, elements_in, operand_of, reach_in};
use crate::edge::{Edge, edge_at};
use crate::illegal::{Illegal, operands_in};
use crate::spans::VlLine;
use crate::vtypes::kept_vtype;
use abs_domain::VL;
use abs_state::{MOST_WORDS, memory_zones};
use block_checker::{CheckError, Explanation, Kept, Part, Refused, Spot, Stop, checked};
use cert_note::Certificate;
use elf_image::Image;
use explanations::{Address, WordLine, listed};
use linear_facts::Range;
use rv_decode::decode;
use std::alloc::{AllocError, Allocator, Global};
use std::fmt;
use vreg_groups::Vlen;

/// What was wanted where a check stopped, beside what its error says.
#[derive(Drop)]
pub enum Wanted {
    /// Nothing more.
    Plain,
    /// A certificate for vector registers of this length; it states another one.
    Length {
        stated: Vlen,
        wanted: Vlen,
    },
    /// A block at the image's entry.
    Entry(u32),
    /// Bytes that lie in one zone with the right.
    Access(Access),
    /// What the block that a way out enters states.
    Edge(Edge),
    /// Operands that are legal under the vector type that is known.
    Illegal {
        /// What is known of vl.
        vl: Range,
        illegal: Illegal,
    },
}

/// Why an image is refused with its certificate.
#[derive(Drop)]
pub struct CheckReason<A: Allocator = Global> {
    /// The error, and where the check stopped.
    pub explanation: Explanation,
    /// The word there as it is listed, if there is a word.
    pub listing: Option<String<A>>,
    /// What was wanted.
    pub wanted: Wanted,
}

/// A stop's place, with the word there.
fn spot_of<A: Allocator, B: Allocator>(image: &Image<B>, stop: &Stop<A>) -> Spot
    ensures { result ≡ spot_of image.now stop.now }
{
    Spot {
        part: stop.part,
        pc: stop.pc,
        kept: stop.kept,
        word: image.code_at(stop.pc),
    }
}

/// An error, and the place where the check stopped.
fn explanation_of<A: Allocator, B: Allocator>(
    image: &Image<B>,
    error: CheckError,
    stop: &Option<Stop<A>>,
) -> Explanation
    ensures { result ≡ explanation_of image.now error stop.now }
{
    let stop = match stop {
        None => None,
        Some(stop) => Some(spot_of(image, stop)),
    };
    Explanation { error, stop }
}

/// The word of a part of the check. On the way into the first block no word is at fault.
fn word_in(part: Part, word: Option<u32>) -> Option<u32>
    ensures { result ≡ word_in part word }
{
    match part {
        Part::Entry => None,
        Part::Block(_) => word,
    }
}

/// The word at which a check stopped, as it is listed.
fn listing_of<A: Allocator + Copy>(
    alloc: A,
    stop: &Option<Spot>,
) -> Result<Option<String<A>>, AllocError>
    ensures { IfOk result (IsListed stop.now) }
{
    let Some(stop) = stop else {
        return Ok(None);
    };
    match word_in(stop.part, stop.word) {
        None => Ok(None),
        Some(word) => {
            let text = listed(alloc, word, stop.pc)?;
            Ok(Some(text))
        }
    }
}

/// What an access at which a check stopped wants, by what is kept of the place before it.
fn access_at<A: Allocator, B: Allocator, C: Allocator>(
    image: &Image<B>,
    certificate: &Certificate<C>,
    stop: &Option<Stop<A>>,
) -> Wanted
    ensures { IsAccess image.now certificate.now (word_of image.now stop.now) (state_of stop.now)
        result }
{
    let Some(stop) = stop else {
        return Wanted::Plain;
    };
    let Some(word) = image.code_at(stop.pc) else {
        return Wanted::Plain;
    };
    let Some(insn) = decode(word) else {
        return Wanted::Plain;
    };
    let Some(operand) = operand_of(&insn) else {
        return Wanted::Plain;
    };
    let base = usize::from(operand.base.number());
    let parameters = &certificate.contents().parameters;
    Wanted::Access(Access {
        operand,
        interval: stop.state.numbers().range_at(base),
        elements: elements_in(&stop.state, &insn),
        reach: reach_in(&stop.state, &insn),
        zones: memory_zones(image, parameters),
        segments: image.segments().len(),
        buffers: buffer_places(parameters),
    })
}

/// What a word at which a check stopped wants that is not legal, by what is kept of the place before it.
fn illegal_at<A: Allocator, B: Allocator>(image: &Image<B>, stop: &Option<Stop<A>>) -> Wanted
    ensures { result ≡ illegal_at_of (option_and_then meaning_of (word_of image.now stop.now))
        (state_of stop.now) }
{
    let Some(stop) = stop else {
        return Wanted::Plain;
    };
    let Some(word) = image.code_at(stop.pc) else {
        return Wanted::Plain;
    };
    let Some(insn) = decode(word) else {
        return Wanted::Plain;
    };
    Wanted::Illegal {
        vl: stop.state.numbers().range_at(VL),
        illegal: operands_in(kept_vtype(stop.state.vtype()), &insn),
    }
}

/// What is wanted where no way out is refused.
fn wanted_here<A: Allocator, B: Allocator, C: Allocator>(
    image: &Image<B>,
    certificate: &Certificate<C>,
    vlen: Vlen,
    error: CheckError,
    stop: &Option<Stop<A>>,
) -> Wanted
    ensures { IsWantedHere image.now certificate.now vlen error (word_of image.now stop.now)
        (state_of stop.now) result }
{
    match error {
        CheckError::WrongVlen => Wanted::Length {
            stated: certificate.contents().vlen,
            wanted: vlen,
        },
        CheckError::NoEntryBlock => Wanted::Entry(image.entry()),
        CheckError::AccessNotProved(_) | CheckError::ReadOnly(_) => {
            access_at(image, certificate, stop)
        }
        CheckError::IllegalWord(_) => illegal_at(image, stop),
        CheckError::NotCode(_)
        | CheckError::VtypeUnknown(_)
        | CheckError::TargetNotABlock(_)
        | CheckError::IntervalNotProved(_)
        | CheckError::EqualityNotProved(_)
        | CheckError::OrderNotProved(_)
        | CheckError::VectorFactNotProved(_)
        | CheckError::BudgetNotProved(_)
        | CheckError::BlockTooLong(_)
        | CheckError::NoMemory => Wanted::Plain,
    }
}

/// What a way out that is refused wants, by what is kept of the place behind the word.
fn edge_wanted<A: Allocator, B: Allocator, C: Allocator>(
    image: &Image<B>,
    certificate: &Certificate<C>,
    error: CheckError,
    stop: &Stop<A>,
) -> Wanted
    ensures { result ≡ if_edge (edge_from certificate.now error stop.now.part stop.now.pc
        (code_at stop.now.pc image.now) stop.now.state) }
{
    let word = image.code_at(stop.pc);
    match edge_at(certificate, error, stop.part, stop.pc, word, &stop.state) {
        Some(edge) => Wanted::Edge(edge),
        None => Wanted::Plain,
    }
}

/// What was wanted.
fn wanted_of<A: Allocator, B: Allocator, C: Allocator>(
    image: &Image<B>,
    certificate: &Certificate<C>,
    vlen: Vlen,
    error: CheckError,
    stop: &Option<Stop<A>>,
) -> Wanted
    requires { IsStopped image.now certificate.now error stop.now }
    ensures { IsWantedBy image.now certificate.now vlen error (option_map (spot_of image.now)
        stop.now) result }
{
    match stop {
        None => wanted_here(image, certificate, vlen, error, stop),
        Some(at) => match at.kept {
            Kept::Behind => edge_wanted(image, certificate, error, at),
            Kept::Before | Kept::End => wanted_here(image, certificate, vlen, error, stop),
        },
    }
}

/// Why an image is refused with a certificate, by the error and the stop of its check.
fn reason_at<A: Allocator + Copy, B: Allocator, C: Allocator, D: Allocator>(
    alloc: A,
    image: &Image<B>,
    certificate: &Certificate<C>,
    error: CheckError,
    stop: &Option<Stop<D>>,
    vlen: Vlen,
) -> Result<CheckReason<A>, AllocError>
    requires { IsStopped image.now certificate.now error stop.now }
    ensures explanation { IfOk result (λ r.
        r.explanation ≡ explanation_of image.now error stop.now) }
    ensures listing { IfOk result (λ r. IsListed r.explanation.stop r.listing) }
    ensures wanted { IfOk result (λ r.
        IsWanted image.now certificate.now vlen r.explanation r.wanted) }
{
    let explanation = explanation_of(image, error, stop);
    let listing = listing_of(alloc, &explanation.stop)?;
    let wanted = wanted_of(image, certificate, vlen, error, stop);
    Ok(CheckReason {
        explanation,
        listing,
        wanted,
    })
}

/// Why an image was refused with a certificate at a length of vector registers.
///
/// # Errors
/// An allocation was refused.
pub fn reason_of<A: Allocator + Copy, B: Allocator, C: Allocator>(
    alloc: A,
    refused: &Refused<B, C>,
    vlen: Vlen,
) -> Result<CheckReason<A>, AllocError>
    requires { IsStopped refused.now.image refused.now.certificate refused.now.error
        refused.now.stop }
    ensures explanation { IfOk result (λ r.
        r.explanation ≡ explanation_of refused.now.image refused.now.error refused.now.stop) }
    ensures listing { IfOk result (λ r. IsListed r.explanation.stop r.listing) }
    ensures wanted { IfOk result (λ r.
        IsWanted refused.now.image refused.now.certificate vlen r.explanation r.wanted) }
{
    let image = &refused.image;
    let certificate = &refused.certificate;
    reason_at(
        alloc,
        image,
        certificate,
        refused.error,
        &refused.stop,
        vlen,
    )
}

/// Why an image is refused with a certificate at a length of vector registers: `None` where the check accepts it.
///
/// # Errors
/// An allocation was refused.
pub fn check_reason<A: Allocator + Copy, B: Allocator, C: Allocator>(
    alloc: A,
    image: &Image<B>,
    certificate: &Certificate<C>,
    vlen: Vlen,
) -> Result<Option<CheckReason<A>>, AllocError>
    // None exactly where the check passes; else its own error.
    ensures answer { IfOk result (λ told. answer_of (option_map (λ r. r.explanation) told)
        ≡ checked_of image.now certificate.now vlen) }
    ensures stop { IfOk result (λ told. IfSome told (λ r.
        Explains image.now certificate.now r.explanation)) }
    ensures listing { IfOk result (λ told. IfSome told (λ r.
        IsListed r.explanation.stop r.listing)) }
    ensures wanted { IfOk result (λ told. IfSome told (λ r.
        IsWanted image.now certificate.now vlen r.explanation r.wanted)) }
{
    match checked(alloc, image, certificate, vlen) {
        Ok(()) => Ok(None),
        Err(halt) => {
            if halt.error == CheckError::NoMemory {
                return Err(AllocError);
            }
            let reason = reason_at(alloc, image, certificate, halt.error, &halt.stop, vlen)?;
            Ok(Some(reason))
        }
    }
}

/// Where a check stopped, and the word there, if it is in a block.
#[derive(Clone, Copy)]
struct StopLines<'a>(&'a Option<Spot>);

impl fmt::Display for StopLines<'_> {
    ghost use Rattle.std.specs.Prelude.{Some};
    ghost use Rattle.check_reasons.specs.Check.{stop_text};

    ghost output = { λ lines. Some (stop_text lines.0.now) };

    #[tactic(auto, unfolding(crate::specs::Check::stop_text))]
    fn fmt<W: fmt::Write>(&self, f: &mut fmt::Formatter<W>) -> fmt::Result {
        match self.0 {
            None => Ok(()),
            Some(stop) => match stop.part {
                Part::Entry => f.write_str("  stopped on the way into the first block\n"),
                Part::Block(start) => {
                    let start = Address(u64::from(start));
                    let word = WordLine(stop.pc, stop.word);
                    write!(f, "  stopped in the block at {start}\n{word}")
                }
            },
        }
    }
}

/// A word as it is listed, as a line.
#[derive(Clone, Copy)]
struct ListingLine<'a, A: Allocator>(&'a Option<String<A>>);

impl<A: Allocator> fmt::Display for ListingLine<'_, A> {
    ghost use Rattle.std.specs.Prelude.{Some};
    ghost use Rattle.explanations.specs.Words.{listing_line};

    ghost output = { λ line. Some (listing_line line.0.now) };

    fn fmt<W: fmt::Write>(&self, f: &mut fmt::Formatter<W>) -> fmt::Result {
        match self.0 {
            None => Ok(()),
            Some(text) => writeln!(f, "  that is {text}"),
        }
    }
}

/// The vector type that is wanted: one that a word needs, or that of the block that a way out enters.
fn vtype_rule(kept: Kept) -> &'static str
    ensures { result.now ≡ vtype_rule kept }
{
    match kept {
        Kept::Behind => "  wanted: the vector type of the block entered\n",
        Kept::Before | Kept::End => "  wanted: a vector type that is known there\n",
    }
}

/// What is kept of a stop; before a word where there is none.
fn kept_of(stop: &Option<Spot>) -> Kept
    ensures { result ≡ kept_of stop.now }
{
    match stop {
        None => Kept::Before,
        Some(stop) => stop.kept,
    }
}

/// What is wanted, by what a stop keeps and by the error.
#[derive(Clone, Copy)]
struct RuleLine(Kept, CheckError);

impl fmt::Display for RuleLine {
    ghost use Rattle.std.specs.Prelude.{Some};
    ghost use Rattle.check_reasons.specs.Check.{rule};

    ghost output = { λ told. Some (rule told.0 told.1) };

    fn fmt<W: fmt::Write>(&self, f: &mut fmt::Formatter<W>) -> fmt::Result {
        let RuleLine(kept, error) = *self;
        f.write_str(match error {
            CheckError::WrongVlen => "",
            CheckError::NoEntryBlock => "",
            CheckError::NotCode(_) => "  wanted: a word in one segment that can be executed\n",
            CheckError::IllegalWord(_) => "  wanted: an instruction that is legal there\n",
            CheckError::VtypeUnknown(_) => return f.write_str(vtype_rule(kept)),
            CheckError::AccessNotProved(_) => "",
            CheckError::ReadOnly(_) => "",
            CheckError::TargetNotABlock(_) =>
                "  wanted: a block where the word leads, or the exit\n",
            CheckError::IntervalNotProved(_) => "  wanted: the intervals of the block entered\n",
            CheckError::EqualityNotProved(_) =>
                "  wanted: the equalities of the block entered: the sums have to be the same\n",
            CheckError::OrderNotProved(_) => "  wanted: the orders of the block entered\n",
            CheckError::VectorFactNotProved(_) =>
                "  wanted: the vector facts of the block entered\n",
            CheckError::BudgetNotProved(_) =>
                "  wanted: a budget for these words and all that may follow\n",
            CheckError::BlockTooLong(_) => {
                return writeln!(f, "  wanted: at most {MOST_WORDS} words in a block");
            }
            CheckError::NoMemory => "",
        })
    }
}

impl fmt::Display for Wanted {
    ghost use Rattle.std.specs.Prelude.{Some};
    ghost use Rattle.check_reasons.specs.Check.{wanted_text};

    ghost output = { λ wanted. Some (wanted_text wanted) };

    #[tactic(auto, unfolding(crate::specs::Check::wanted_text))]
    fn fmt<W: fmt::Write>(&self, f: &mut fmt::Formatter<W>) -> fmt::Result {
        match self {
            Wanted::Plain => Ok(()),
            Wanted::Length { stated, wanted } => {
                let stated = Bits(*stated);
                let wanted = Bits(*wanted);
                write!(f, "  stated: VLEN {stated}\n  wanted: VLEN {wanted}\n")
            }
            Wanted::Entry(entry) => {
                let entry = Address(u64::from(*entry));
                writeln!(f, "  wanted: a block at the entry, {entry}")
            }
            Wanted::Access(access) => write!(f, "{access}"),
            Wanted::Edge(edge) => write!(f, "{edge}"),
            Wanted::Illegal { vl, illegal } => {
                let vl = VlLine(*vl);
                write!(f, "{vl}{illegal}")
            }
        }
    }
}

/// The number of bits of a vector register.
#[derive(Clone, Copy)]
struct Bits(Vlen);

impl fmt::Display for Bits {
    ghost use Rattle.std.specs.Prelude.{Some};
    ghost use Rattle.check_reasons.specs.Check.{bits_text};

    ghost output = { λ bits. Some (bits_text bits.0) };

    fn fmt<W: fmt::Write>(&self, f: &mut fmt::Formatter<W>) -> fmt::Result {
        f.write_str(match self.0 {
            Vlen::V128 => "128",
            Vlen::V256 => "256",
            Vlen::V512 => "512",
        })
    }
}

impl<A: Allocator> fmt::Display for CheckReason<A> {
    ghost use Rattle.std.specs.Prelude.{Some};
    ghost use Rattle.check_reasons.specs.Check.{check_text};

    ghost output = { λ reason. Some (check_text reason) };

    #[tactic(auto, unfolding(crate::specs::Check::check_text))]
    fn fmt<W: fmt::Write>(&self, f: &mut fmt::Formatter<W>) -> fmt::Result {
        let stop = StopLines(&self.explanation.stop);
        let listing = ListingLine(&self.listing);
        let rule = RuleLine(kept_of(&self.explanation.stop), self.explanation.error);
        let wanted = &self.wanted;
        write!(f, "{stop}{listing}{rule}{wanted}")
    }
}
