//! An image that passed the check with its certificate.
ghost use Rattle.std.specs.Prelude.{◌≡◌, ◌*◌, ◌^◌, ◌<◌, IfOk, IfErr, Ok, Err, Some, option_map};
ghost use Rattle.block_checker.specs.Passes.{block_at as block_at_of, checked as checked_of};
ghost use Rattle.block_checker.specs.Accepted.{IsAnswer};
ghost use Rattle.block_checker.specs.Bound.{start_number as start_number_of};
ghost use Rattle.block_checker.specs.Explained.{IsStopped};

use crate::checks::{block_at, checked};
use crate::errors::CheckError;
use crate::laws::passing_runs_end;
use crate::refused::Refused;
use abs_domain::start_value;
use cert_note::{Budget, Certificate};
use elf_image::Image;
use region_mem::Parameters;
use scalar_core::EntryValue;
use std::alloc::{Allocator, Global};
use std::marker::Model;
use vreg_groups::Vlen;

/// An image and its certificate that passed the check at a vector length. `A` is their allocator.
#[derive(Drop)]
pub struct Accepted<A: Allocator = Global> {
    image: Image<A>,
    certificate: Certificate<A>,
    vlen: Vlen,
}

impl<A: Allocator> Model for Accepted<A> {
    ghost use Rattle.block_checker.specs.Accepted.{AcceptedView, Passes};

    ghost Value = { AcceptedView };

    ghost view = { λ a. record { image = a.image; certificate = a.certificate; vlen = a.vlen } };

    ghost invariant = { λ a. Passes record {
      image = a.image;
      certificate = a.certificate;
      vlen = a.vlen;
    } };
}

/// Checks an image against its certificate, for vector registers of this length.
///
/// What is accepted ends on any arguments that match the certificate's parameters, without a fault, after at most
/// [`Accepted::bound`] instructions.
///
/// # Errors
/// The first fault, in this order: `WrongVlen`, `NoEntryBlock`, the way from the start of a run into the block at the entry,
/// then each block by rising start, word by word. `NoMemory` where an allocation was refused. The image and the certificate
/// come back as they were.
pub fn check(
    alloc: Global,
    image: Image,
    certificate: Certificate,
    vlen: Vlen,
) -> Result<Accepted, (CheckError, Image, Certificate)>
    ensures accepted { IfOk result
        (λ a. (a ≡ record { image = image; certificate = certificate; vlen = vlen })
        × (checked_of image certificate vlen ≡ Ok tt)) }
    ensures refused { IfErr result (λ e. IsAnswer (Err e.0) (checked_of image certificate vlen)) }
    ensures back { IfErr result (λ e. (e.1 ≡ image) × (e.2 ≡ certificate)) }
{
    check_in(alloc, image, certificate, vlen)
}

/// As [`check`], with the check's memory from any allocator.
pub fn check_in<A: Allocator + Copy, B: Allocator>(
    alloc: A,
    image: Image<B>,
    certificate: Certificate<B>,
    vlen: Vlen,
) -> Result<Accepted<B>, (CheckError, Image<B>, Certificate<B>)>
    ensures accepted { IfOk result
        (λ a. (a ≡ record { image = image; certificate = certificate; vlen = vlen })
        × (checked_of image certificate vlen ≡ Ok tt)) }
    ensures refused { IfErr result (λ e. IsAnswer (Err e.0) (checked_of image certificate vlen)) }
    ensures back { IfErr result (λ e. (e.1 ≡ image) × (e.2 ≡ certificate)) }
{
    match check_kept_in(alloc, image, certificate, vlen) {
        Ok(accepted) => Ok(accepted),
        Err(refused) => {
            let Refused {
                error,
                image,
                certificate,
                ..
            } = refused;
            Err((error, image, certificate))
        }
    }
}

/// As [`check`]. What is refused comes back with the place at which the check stopped, and with what is known there.
pub fn check_kept(
    alloc: Global,
    image: Image,
    certificate: Certificate,
    vlen: Vlen,
) -> Result<Accepted, Refused>
    ensures accepted { IfOk result
        (λ a. (a ≡ record { image = image; certificate = certificate; vlen = vlen })
        × (checked_of image certificate vlen ≡ Ok tt)) }
    ensures refused { IfErr result
        (λ r. IsAnswer (Err r.error) (checked_of image certificate vlen)) }
    ensures stop { IfErr result (λ r. IsStopped image certificate r.error r.stop) }
    ensures back { IfErr result (λ r. (r.image ≡ image) × (r.certificate ≡ certificate)) }
{
    check_kept_in(alloc, image, certificate, vlen)
}

/// As [`check_kept`], with the check's memory from any allocator.
pub fn check_kept_in<A: Allocator + Copy, B: Allocator>(
    alloc: A,
    image: Image<B>,
    certificate: Certificate<B>,
    vlen: Vlen,
) -> Result<Accepted<B>, Refused<A, B>>
    ensures accepted { IfOk result
        (λ a. (a ≡ record { image = image; certificate = certificate; vlen = vlen })
        × (checked_of image certificate vlen ≡ Ok tt)) }
    ensures refused { IfErr result
        (λ r. IsAnswer (Err r.error) (checked_of image certificate vlen)) }
    ensures stop { IfErr result (λ r. IsStopped image certificate r.error r.stop) }
    ensures back { IfErr result (λ r. (r.image ≡ image) × (r.certificate ≡ certificate)) }
{
    match checked(alloc, &image, &certificate, vlen) {
        Ok(()) => Ok(Accepted {
            image,
            certificate,
            vlen,
        }),
        Err(halt) => Err(Refused {
            error: halt.error,
            stop: halt.stop,
            image,
            certificate,
        }),
    }
}

/// What a register holds at the start of a run with these scalars.
fn start_number(parameters: &Parameters, scalars: &[u32; 8], register: u8) -> u32
    ensures { result ≡ start_number_of parameters.now scalars.now register }
{
    match start_value(parameters, register) {
        EntryValue::Number(number) => number,
        EntryValue::Passed(place) => scalars[place],
    }
}

/// A factor times a number.
fn times(factor: u32, number: u32) -> u128
    ensures value { result ≡ factor * number }
    ensures small { result < 2 ^ 64 }
{
    u128::from(factor) * u128::from(number)
}

/// The budget of the block at the entry of an image that passed the check.
fn entry_budget<A: Allocator>(image: &Image<A>, certificate: &Certificate<A>, vlen: Vlen) -> Budget
    requires { checked_of image.now certificate.now vlen ≡ Ok tt }
    ensures { option_map (λ block. block.budget)
        (block_at_of image.now.entry certificate.now.blocks) ≡ Some result }
{
    match block_at(certificate, image.entry()) {
        Some(block) => block.budget,
        None => unreachable!(),
    }
}

impl<A: Allocator> Accepted<A> {
    ghost use Rattle.std.specs.Prelude.{◌≡◌};
    ghost use Rattle.block_checker.specs.Bound.{bound_of};
    ghost use Rattle.block_checker.specs.BoundLaws.{BoundIsBudget};
    ghost use Rattle.block_checker.specs.Sound.{RunsEnd};

    /// The image.
    pub fn image(&self) -> &Image<A>
        ensures { result.now ≡ self.now.image }
    {
        &self.image
    }

    /// The certificate.
    pub fn certificate(&self) -> &Certificate<A>
        ensures { result.now ≡ self.now.certificate }
    {
        &self.certificate
    }

    /// The length of a vector register for which the image was checked.
    pub fn vlen(&self) -> Vlen
        ensures { result ≡ self.now.vlen }
    {
        self.vlen
    }

    /// What the image's code takes, by place.
    pub fn parameters(&self) -> &Parameters
        ensures { result.now ≡ self.now.certificate.parameters }
    {
        &self.certificate.contents().parameters
    }

    /// A law, which does nothing when it runs: on all arguments that match the parameters, a run ends within [`Accepted::bound`]
    /// of its scalars, without a fault.
    pub fn runs_end(&self)
        ensures { RunsEnd self.now }
    {
        passing_runs_end();
        let _segments = self.image.segments();
        let _contents = self.certificate.contents();
    }

    /// A law, which does nothing when it runs: for the scalars of arguments that match the parameters, [`Accepted::bound`] is
    /// the budget of the block at the image's entry, with its registers as they are at the start of a run.
    pub fn bound_is_budget(&self)
        ensures { BoundIsBudget self.now }
    {
        let _contents = self.certificate.contents();
    }

    /// The budget that the certificate states for the block at the image's entry.
    pub fn budget(&self) -> Budget
        ensures { option_map (λ block. block.budget)
            (block_at_of self.now.image.entry self.now.certificate.blocks) ≡ Some result }
    {
        entry_budget(&self.image, &self.certificate, self.vlen)
    }

    /// How many instructions a run on these arguments takes at most: the number of a scalar argument stands at its place, and
    /// what stands at any other place says nothing.
    #[tactic(auto, unfolding(crate::specs::Bound::bound_of), using(crate::proofs::Bounds::bound_by))]
    pub fn bound(&self, scalars: &[u32; 8]) -> u128
        ensures { result ≡ bound_of self.now scalars.now }
    {
        let budget = self.budget();
        let first = start_number(self.parameters(), scalars, budget.register);
        let second = start_number(self.parameters(), scalars, budget.second_register);
        u128::from(budget.constant)
            + times(budget.factor, first)
            + times(budget.second_factor, second)
    }
}
