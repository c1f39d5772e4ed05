//! What comes of an image with a certificate: whether it is accepted.
ghost use Rattle.std.specs.Prelude.{◌≡◌, Err, IfErr, IfOk};
ghost use Rattle.block_checker.specs.Accepted.{Passes};
ghost use Rattle.endings.specs.Accepted.{IsOrWant, OrMemory, accepted_of, certificate_in};
ghost use Rattle.endings.specs.Halt.{bare};
ghost use Rattle.endings.specs.Why.{ExplainsAccepted, ExplainsCertificate};

use crate::halt::Halt;
use crate::stop::Stop;
use crate::why::{bad_certificate, not_accepted};
use block_checker::{Accepted, check_kept};
use cert_note::{Certificate, read_kept};
use elf_image::Image;
use std::alloc::Global;
use vreg_groups::Vlen;

/// The certificate in an image's note.
fn certificate_in<'a>(alloc: Global, image: &Image) -> Result<Certificate, Halt<'a>>
    ensures answer { OrMemory (certificate_in image.now.certificate) (bare result) }
    ensures told { IfErr result (ExplainsCertificate image.now.certificate) }
{
    let Some(bytes) = image.certificate() else {
        return Err(Halt::Plain(Stop::NoCertificate));
    };
    match read_kept(alloc, bytes) {
        Ok(certificate) => Ok(certificate),
        Err(refusal) => Err(bad_certificate(alloc, bytes, refusal)),
    }
}

/// An image with its certificate, where they pass the check at a length of vector registers: at `vlen`, or at the
/// certificate's own where that is `None`.
///
/// `NoCertificate` and the error of a certificate that can't be read come before the check's error, and before want of memory.
pub fn accept<'a>(alloc: Global, image: Image, vlen: Option<Vlen>) -> Result<Accepted, Halt<'a>>
    ensures certificate { IfErr (certificate_in image.certificate)
        (λ reason. bare result ≡ Err reason) }
    ensures answer { IsOrWant (accepted_of vlen image) (bare result) }
    ensures told { IfErr result (ExplainsAccepted vlen image) }
    ensures passes { IfOk result Passes }
{
    let certificate = certificate_in(alloc, &image)?;
    let vlen = vlen.unwrap_or(certificate.contents().vlen);
    match check_kept(alloc, image, certificate, vlen) {
        Ok(accepted) => Ok(accepted),
        Err(refused) => Err(not_accepted(alloc, &refused, vlen)),
    }
}
