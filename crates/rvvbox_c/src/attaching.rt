//! A certificate that is put to an image.
ghost use Rattle.std.specs.Prelude.{◌≡◌, IfErr, IfOk, IfSome, IsErrAnd, None, length};
ghost use Rattle.elf_image.specs.Attached.{attach_fault, attached_of};
ghost use Rattle.rvvbox_c.specs.Explain.{put_over as over};
ghost use Rattle.rvvbox_c.specs.Holds.{IsFailure};
ghost use Rattle.rvvbox_c.specs.Status.{IsThisOrWant, image_refusal, plain};
ghost use Rattle.rvvbox_c.specs.declared.status.Status.TheVariants.{Done, NoMemory};

use crate::explain::put_over;
use crate::status::{Refusal, Status};
use std::alloc::Global;

/// The file with the certificate.
pub(crate) fn attached(alloc: Global, file: &[u8], certificate: &[u8]) -> Result<Vec<u8>, Refusal>
    ensures at_once { IfSome (attach_fault file.now certificate.now)
        (λ fault. IsErrAnd result (λ refusal. refusal ≡ image_refusal fault)) }
    ensures want { attach_fault file.now certificate.now ≡ None
        → IfErr result (λ refusal. refusal ≡ plain NoMemory) }
    ensures made { IfOk result (λ bytes. bytes.items ≡ attached_of file.now certificate.now) }
    ensures failed { IfErr result (λ refusal. IsFailure refusal.status) }
{
    match elf_image::attach(alloc, file, certificate) {
        Ok(bytes) => Ok(bytes),
        Err(error) => Err(Refusal::from(error)),
    }
}

/// Puts the file with the certificate in a note behind it into `out`, or as much of it as there is
/// room for; `needed` is how many bytes all of it has. Nothing is checked but the file itself. Where
/// that is refused, `refusal` tells why, and all else is as it was.
#[unsafe(no_mangle)]
pub extern "C" fn rvvbox_attach_raw(
    alloc: Global,
    file: &[u8],
    certificate: &[u8],
    out: &mut [u8],
    needed: &mut usize,
    refusal: &mut Refusal,
) -> u32
    ensures status { result ≡ refusal.new.status }
    ensures at_once { IfSome (attach_fault file.now certificate.now)
        (λ fault. refusal.new ≡ image_refusal fault) }
    ensures answer { attach_fault file.now certificate.now ≡ None
        → IsThisOrWant (plain Done) refusal.new }
    ensures put { result ≡ 0 → out.new ≡ over (attached_of file.now certificate.now) out.old }
    ensures needed { result ≡ 0 → needed.new ≡ length (attached_of file.now certificate.now) }
    ensures refused { IsFailure result → (out.new ≡ out.old) × (needed.new ≡ needed.old) }
{
    match attached(alloc, file, certificate) {
        Ok(bytes) => {
            put_over(bytes.as_slice(), out);
            *needed = bytes.len();
            *refusal = Refusal::of(Status::Done);
            Status::Done.code()
        }
        Err(told) => {
            *refusal = told;
            told.status
        }
    }
}
