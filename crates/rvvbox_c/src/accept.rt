//! An image with its certificate, out of a file's bytes.
ghost use Rattle.std.specs.Prelude.{◌≡◌, ◌*◌, IfErr, IfOk, IfSome, IsErrAnd};
ghost use Rattle.rvvbox_c.specs.Accept.{IsRefusalOf, accepted_of, agnostic_at};
ghost use Rattle.rvvbox_c.specs.Accept.{certificate_in as certificate_of, unread, vlen_at};
ghost use Rattle.block_checker.specs.Accepted.{Passes};
ghost use Rattle.elf_image.specs.Faults.{fault_of};
ghost use Rattle.elf_image.specs.File.{image_of};
ghost use Rattle.vreg_groups.specs.VectorLength.{vlenb_of};
ghost use Rattle.rvvbox_c.specs.Holds.{IsFailure};
ghost use Rattle.rvvbox_c.specs.Runs.{number_of};
ghost use Rattle.rvvbox_c.specs.Status.{image_refusal};

use crate::status::{Refusal, Status};
use block_checker::{Accepted, check};
use cert_note::{CertRefusal, Certificate};
use elf_image::Image;
use std::alloc::Global;
use vreg_groups::{Agnostic, Vlen};

/// The length of vector registers of `bits` bits.
pub(crate) fn vlen_of(bits: u32) -> Option<Vlen>
    ensures value { result ≡ vlen_at bits }
    ensures bits { IfSome result (λ vlen. vlenb_of vlen * 8 ≡ bits) }
{
    match bits {
        128 => Some(Vlen::V128),
        256 => Some(Vlen::V256),
        512 => Some(Vlen::V512),
        _ => None,
    }
}

/// What is done with agnostic elements: 0 keeps them, 1 fills them with ones.
pub(crate) fn agnostic_of(number: u32) -> Option<Agnostic>
    ensures value { result ≡ agnostic_at number }
    ensures number { IfSome result (λ agnostic. number ≡ number_of agnostic) }
{
    match number {
        0 => Some(Agnostic::Keep),
        1 => Some(Agnostic::Ones),
        _ => None,
    }
}

/// Why bytes are no certificate, with how many of them were read when they told the error.
fn unread(refusal: CertRefusal) -> Refusal
    ensures told { result ≡ unread refusal }
    ensures failed { IsFailure result.status }
{
    match refusal.place {
        Some(read) => Refusal::unread(refusal.error, read),
        None => Refusal::of(Status::NoMemory),
    }
}

/// The certificate in an image's note.
fn certificate_in(alloc: Global, image: &Image) -> Result<Certificate, Refusal>
    ensures found { IfOk result (λ c. certificate_of image.now.certificate ≡ Ok c) }
    ensures refused { IfErr result (IsRefusalOf (certificate_of image.now.certificate)) }
    ensures failed { IfErr result (λ refusal. IsFailure refusal.status) }
{
    let Some(note) = image.certificate() else {
        return Err(Refusal::of(Status::NoCertificate));
    };
    match cert_note::read_kept(alloc, note) {
        Ok(certificate) => Ok(certificate),
        Err(refusal) => Err(unread(refusal)),
    }
}

/// The image that a file spells, with the certificate in its note, where they pass the check.
pub fn accept(alloc: Global, file: &[u8], vlen: Vlen) -> Result<Accepted, Refusal>
    ensures at_once { IfSome (fault_of file.now)
        (λ fault. IsErrAnd result (λ refusal. refusal ≡ image_refusal fault)) }
    ensures found { IfOk result (λ a. accepted_of vlen file.now ≡ Ok a) }
    ensures refused { IfErr result (IsRefusalOf (accepted_of vlen file.now)) }
    ensures image { IfOk result (λ a. a.image ≡ image_of file.now) }
    ensures vlen { IfOk result (λ a. a.vlen ≡ vlen) }
    ensures passes { IfOk result Passes }
    ensures failed { IfErr result (λ refusal. IsFailure refusal.status) }
{
    let image = elf_image::read(alloc, file)?;
    let certificate = certificate_in(alloc, &image)?;
    match check(alloc, image, certificate, vlen) {
        Ok(accepted) => Ok(accepted),
        Err((error, _, _)) => Err(Refusal::from(error)),
    }
}
