//! The certificate of a loop.
ghost use Rattle.std.specs.Prelude.{◌≡◌, ◌≤◌, ◌<◌, ◌+◌, ◌*◌, ◌^◌, true, MatchResult, IfOk, Err};
ghost use Rattle.std.specs.List.{AllByRecursion};
ghost use Rattle.cert_note.specs.Certificate.{FitsWords};
ghost use Rattle.cert_maker.specs.Certificates.{certificate_of};
ghost use Rattle.cert_maker.specs.Loops.{loop_of as loop_of_of};
ghost use Rattle.cert_maker.specs.Refusal.{misfit_at};
ghost use Rattle.cert_maker.specs.Make.{AreParameters, FitsAt, IsFor};
ghost use Rattle.cert_maker.specs.declared.errors.MakeError.TheVariants.{NotALoopOfTheClass};
ghost use Rattle.cert_maker.specs.declared.errors.MakeError.TheVariants.{NoMemory};

use crate::building::blocks;
use crate::errors::MakeError;
use crate::loops::{Loop, loop_of};
use crate::refusal::{MakeRefusal, misfit_at};
use cert_note::{Certificate, Contents, Version};
use elf_image::Image;
use region_mem::{Param, Parameters};
use std::alloc::{AllocError, Allocator, Global};
use vreg_groups::Vlen;

/// What the parameter at a place says fits its words.
fn fits_at(parameters: &Parameters, place: usize)
    requires { place < 8 }
    ensures { FitsAt parameters.now place }
{
    match parameters.param(place) {
        Param::Scalar { lo: _, hi } => {
            let _hi: u32 = hi;
        }
        Param::None | Param::Buffer { .. } => {}
    }
}

/// What each parameter says fits its words.
#[tactic(auto, using(crate::proofs::FitsLemmas::none_fit, crate::proofs::FitsLemmas::fits_more))]
fn fits(parameters: &Parameters)
    ensures { AllByRecursion FitsWords parameters.now }
{
    for place in 0..8usize {
        fits_at(parameters, place);
    }
    let _params = parameters.to_array();
}

/// Whether they are valid: all `Parameters` are.
fn are_valid(parameters: &Parameters) -> bool
    ensures { result ≡ true → AreParameters parameters.now }
{
    fits(parameters);
    Parameters::new(parameters.to_array()).is_some()
}

/// The count's greatest number fits a word.
fn most_fits(of: &Loop)
    ensures { of.now.most < 2 ^ 32 }
{
    let _most: u32 = of.most;
}

/// The certificate of a loop of `words` instructions.
fn certificate<A: Allocator, B: Allocator>(
    alloc: A,
    image: &Image<B>,
    parameters: &Parameters,
    vlen: Vlen,
    of: &Loop,
    words: u32,
) -> Result<Certificate<A>, AllocError>
    requires params { AreParameters parameters.now }
    requires class { IsFor parameters.now of.now }
    requires some { 0 < words }
    requires low { image.now.entry + 4 + 4 * words ≤ 0xC000_0000 }
    ensures { IfOk result (λ c.
        c ≡ certificate_of image.now parameters.now vlen of.now words) }
{
    most_fits(of);
    let blocks = blocks(alloc, image.entry(), parameters, of, words)?;
    Ok(Certificate::new(Contents {
        version: Version::V1,
        vlen,
        parameters: *parameters,
        blocks,
    }))
}

/// The loop at the image's entry and how many instructions it has, or the address of the first word that does not fit.
fn read<A: Allocator>(image: &Image<A>, parameters: &Parameters) -> Result<(Loop, u32), u32>
    ensures value { result ≡ loop_of_of image.now parameters.now }
    ensures low { IfOk result (λ x. image.now.entry + 4 + 4 * x.1 ≤ 0xC000_0000) }
    ensures class { IfOk result (λ x. IsFor parameters.now x.0) }
    ensures some { IfOk result (λ x. 0 < x.1) }
{
    loop_of(image, parameters)
}

/// As [`make`], with the certificate's memory from any allocator; where the words are no loop of the class, with what is
/// known of the first that does not fit.
pub fn make_kept<A: Allocator, B: Allocator>(
    alloc: A,
    image: &Image<B>,
    parameters: &Parameters,
    vlen: Vlen,
) -> Result<Certificate<A>, MakeRefusal>
    ensures { MatchResult (loop_of_of image.now parameters.now)
        (λ through. MatchResult result
        (λ c. c ≡ certificate_of image.now parameters.now vlen through.0 through.1)
        (λ refusal. refusal ≡ MakeRefusal.NoMemory))
        (λ address. result ≡ Err (MakeRefusal.Misfit (misfit_at image.now address))) }
{
    match read(image, parameters) {
        Ok((of, words)) => {
            if !are_valid(parameters) {
                return Err(MakeRefusal::NoMemory);
            }
            Ok(certificate(alloc, image, parameters, vlen, &of, words)?)
        }
        Err(address) => Err(MakeRefusal::Misfit(misfit_at(image, address))),
    }
}

/// As [`make`], with the certificate's memory from any allocator.
pub fn make_in<A: Allocator, B: Allocator>(
    alloc: A,
    image: &Image<B>,
    parameters: &Parameters,
    vlen: Vlen,
) -> Result<Certificate<A>, MakeError>
    ensures { MatchResult (loop_of_of image.now parameters.now)
        (λ through. MatchResult result
        (λ c. c ≡ certificate_of image.now parameters.now vlen through.0 through.1)
        (λ e. e ≡ NoMemory))
        (λ address. result ≡ Err (NotALoopOfTheClass address)) }
{
    match make_kept(alloc, image, parameters, vlen) {
        Ok(certificate) => Ok(certificate),
        Err(refusal) => Err(refusal.error()),
    }
}

/// Makes the certificate of the loop at an image's entry, which takes these parameters, for vector registers of this
/// length.
///
/// # Errors
/// `NotALoopOfTheClass` where the words from the entry on are not a loop of the class. `NoMemory` where an allocation was
/// refused: memory is asked for only once the loop is read.
pub fn make<B: Allocator>(
    alloc: Global,
    image: &Image<B>,
    parameters: &Parameters,
    vlen: Vlen,
) -> Result<Certificate, MakeError>
    ensures { MatchResult (loop_of_of image.now parameters.now)
        (λ through. MatchResult result
        (λ c. c ≡ certificate_of image.now parameters.now vlen through.0 through.1)
        (λ e. e ≡ NoMemory))
        (λ address. result ≡ Err (NotALoopOfTheClass address)) }
{
    make_in(alloc, image, parameters, vlen)
}
