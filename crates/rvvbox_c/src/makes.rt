//! An image with the certificate that is made of its loop.
ghost use Rattle.std.specs.Prelude.{◌≡◌, IfErr, IfSome, IsErrAnd, IsOkAnd, length};
ghost use Rattle.rvvbox_c.specs.Explain.{put_over as over};
ghost use Rattle.rvvbox_c.specs.Holds.{IsFailure};
ghost use Rattle.rvvbox_c.specs.Makes.{AnswersBytes, IsOrWant, IsToldOrWant};
ghost use Rattle.rvvbox_c.specs.Makes.{certificate_for as certificate_of};
ghost use Rattle.rvvbox_c.specs.Makes.{image_in as image_of, kind_at, kinds_of};
ghost use Rattle.rvvbox_c.specs.Makes.{length_in as length_of, made_at_once, made_of};
ghost use Rattle.rvvbox_c.specs.Makes.{no_such, param_of, params_of, refused_by, taken_by};
ghost use Rattle.rvvbox_c.specs.Makes.{with_certificate as file_with};

use crate::accept::vlen_of;
use crate::attaching::attached;
use crate::explain::put_over;
use crate::facts::Parameter;
use crate::forms::{Form, Forms};
use crate::status::{Refusal, Status};
use cert_maker::make;
use cert_note::Certificate;
use elf_image::Image;
use job_reasons::{MakeReason, parameter_reason};
use region_mem::{Mode, Param, Parameters};
use std::alloc::Global;
use vreg_groups::Vlen;

/// What a kernel is to take at the eight places.
#[repr(C)]
#[derive(Clone, Copy)]
pub struct Takes {
    pub a0: Parameter,
    pub a1: Parameter,
    pub a2: Parameter,
    pub a3: Parameter,
    pub a4: Parameter,
    pub a5: Parameter,
    pub a6: Parameter,
    pub a7: Parameter,
}

/// What a kernel is to take at a place, by its kind.
fn param(parameter: Parameter) -> Param
    ensures { result ≡ param_of parameter }
{
    match parameter.kind {
        0 => Param::None,
        1 => Param::Scalar {
            lo: parameter.lo,
            hi: parameter.hi,
        },
        2 => Param::Buffer {
            mode: Mode::ReadWrite,
            size: parameter.size,
        },
        _ => Param::Buffer {
            mode: Mode::Read,
            size: parameter.size,
        },
    }
}

/// The kind alone.
fn kind(parameter: Parameter) -> Form
    ensures { result ≡ kind_at parameter }
{
    Form {
        kind: parameter.kind,
        value: 0,
    }
}

/// Why there are no such parameters: the first that there can't be.
fn no_such(params: &[Param; 8]) -> Refusal
    ensures told { result ≡ no_such params.now }
    ensures failed { IsFailure result.status }
{
    match parameter_reason(params) {
        MakeReason::Empty { place, .. } => Refusal::at(Status::BadParameter, place),
        MakeReason::LargeBuffer { place, .. } => Refusal::at(Status::BadParameter, place),
        MakeReason::Untold
        | MakeReason::NoWord { .. }
        | MakeReason::Word { .. }
        | MakeReason::Certified(_)
        | MakeReason::LargeFile { .. } => Refusal::of(Status::BadParameter),
    }
}

impl Takes {
    /// The kinds alone.
    fn kinds(&self) -> Forms
        ensures { result ≡ kinds_of self.now }
    {
        Forms {
            a0: kind(self.a0),
            a1: kind(self.a1),
            a2: kind(self.a2),
            a3: kind(self.a3),
            a4: kind(self.a4),
            a5: kind(self.a5),
            a6: kind(self.a6),
            a7: kind(self.a7),
        }
    }

    /// What is taken, by kind.
    fn params(&self) -> [Param; 8]
        ensures { result ≡ params_of self.now }
    {
        [
            param(self.a0),
            param(self.a1),
            param(self.a2),
            param(self.a3),
            param(self.a4),
            param(self.a5),
            param(self.a6),
            param(self.a7),
        ]
    }

    /// What is taken, each of a kind and valid.
    fn parameters(&self) -> Result<Parameters, Refusal>
        ensures answer { result ≡ taken_by self.now }
        ensures failed { IfErr result (λ refusal. IsFailure refusal.status) }
    {
        if let Some(place) = self.kinds().place_of_no_kind() {
            return Err(Refusal::at(Status::BadKind, place));
        }
        match Parameters::new(self.params()) {
            None => Err(no_such(&self.params())),
            Some(parameters) => Ok(parameters),
        }
    }
}

/// The length of vector registers of `bits` bits.
fn length_in(bits: u32) -> Result<Vlen, Refusal>
    ensures answer { result ≡ length_of bits }
    ensures failed { IfErr result (λ refusal. IsFailure refusal.status) }
{
    match vlen_of(bits) {
        None => Err(Refusal::of(Status::BadVlen)),
        Some(vlen) => Ok(vlen),
    }
}

/// The image that a file spells.
fn image_in(alloc: Global, file: &[u8]) -> Result<Image, Refusal>
    ensures at_once { IfSome (refused_by (image_of file.now))
        (λ told. IsErrAnd result (λ refusal. refusal ≡ told)) }
    ensures answer { IsOrWant (image_of file.now) result }
    ensures failed { IfErr result (λ refusal. IsFailure refusal.status) }
{
    match elf_image::read(alloc, file) {
        Ok(image) => Ok(image),
        Err(error) => Err(Refusal::from(error)),
    }
}

/// The certificate of the loop at an image's entry.
fn certificate_for(
    alloc: Global,
    image: &Image,
    parameters: &Parameters,
    vlen: Vlen,
) -> Result<Certificate, Refusal>
    ensures answer { IsOrWant (certificate_of image.now parameters.now vlen) result }
    ensures failed { IfErr result (λ refusal. IsFailure refusal.status) }
{
    match make(alloc, image, parameters, vlen) {
        Ok(certificate) => Ok(certificate),
        Err(error) => Err(Refusal::from(error)),
    }
}

/// The file with a certificate in a note.
fn with_certificate(
    alloc: Global,
    file: &[u8],
    certificate: &Certificate,
) -> Result<Vec<u8>, Refusal>
    ensures answer { AnswersBytes (file_with file.now certificate.now) result }
    ensures failed { IfErr result (λ refusal. IsFailure refusal.status) }
{
    let note = cert_note::write(alloc, certificate)?;
    attached(alloc, file, note.as_slice())
}

/// The file with the certificate that is made of it.
fn made(alloc: Global, file: &[u8], vlen: u32, takes: &Takes) -> Result<Vec<u8>, Refusal>
    ensures at_once { IfSome (made_at_once vlen takes.now file.now)
        (λ told. IsErrAnd result (λ refusal. refusal ≡ told)) }
    ensures answer { AnswersBytes (made_of vlen takes.now file.now) result }
    ensures failed { IfErr result (λ refusal. IsFailure refusal.status) }
{
    let vlen = length_in(vlen)?;
    let parameters = takes.parameters()?;
    let image = image_in(alloc, file)?;
    let certificate = certificate_for(alloc, &image, &parameters, vlen)?;
    with_certificate(alloc, file, &certificate)
}

/// Makes the certificate of the loop at an image's entry, for vector registers of `vlen` bits and
/// what a kernel is to take. Puts the file with it in a note behind it into `out`, or as much of it
/// as there is room for; `needed` is how many bytes all of it has. The check is not made.
///
/// Where it is refused, `refusal` tells why, and all else is as it was. The reasons, in this order:
/// a length of registers that is none; a parameter of no kind, with its place; one that is not
/// valid; a file that is no image; words that are no loop of the class, with the address of the
/// first that does not fit; a file that has a certificate, or no room for one; want of memory.
#[unsafe(no_mangle)]
pub extern "C" fn rvvbox_make_raw(
    alloc: Global,
    file: &[u8],
    vlen: u32,
    takes: &Takes,
    out: &mut [u8],
    needed: &mut usize,
    refusal: &mut Refusal,
) -> u32
    ensures status { result ≡ refusal.new.status }
    ensures at_once { IfSome (made_at_once vlen takes.now file.now) (λ told. refusal.new ≡ told) }
    ensures answer { IsToldOrWant (made_of vlen takes.now file.now) refusal.new }
    ensures put { result ≡ 0 → IsOkAnd (made_of vlen takes.now file.now)
        (λ bytes. out.new ≡ over bytes out.old) }
    ensures needed { result ≡ 0 → IsOkAnd (made_of vlen takes.now file.now)
        (λ bytes. needed.new ≡ length bytes) }
    ensures refused { IsFailure result → (out.new ≡ out.old) × (needed.new ≡ needed.old) }
{
    match made(alloc, file, vlen, takes) {
        Ok(bytes) => {
            put_over(bytes.as_slice(), out);
            *needed = bytes.len();
            *refusal = Refusal::of(Status::Done);
            Status::Done.code()
        }
        Err(told) => {
            *refusal = told;
            told.status
        }
    }
}
