//! Why a file is refused, in words that a host reads.
ghost use Rattle.std.specs.Prelude.{◌≡◌, IfErr, IfOk, IfSome, string_bytes, unwrap_or};
ghost use Rattle.rvvbox_c.specs.Answers.{length_fault};
ghost use Rattle.cert_note.specs.Reading.{IsRefusal};
ghost use Rattle.rvvbox_c.specs.Explain.{HasExplained, IsTextFor, IsTextOfCheck, IsTextOfImage};
ghost use Rattle.rvvbox_c.specs.Explain.{IsTextOfReading, put_over, text_of_fault};
ghost use Rattle.rvvbox_c.specs.Holds.{IsFailure};
ghost use Rattle.rvvbox_c.specs.Status.{IsStatusOrWant, code_of};
ghost use Rattle.rvvbox_c.specs.declared.status.Status.TheVariants.{Done, NoMemory};

use crate::accept::vlen_of;
use crate::status::Status;
use cert_note::{CertError, CertRefusal, Certificate};
use check_reasons::check_reason;
use elf_image::{ElfError, ElfRefusal, Image};
use explanations::{ImageReason, Refusal, refusal_reason};
use std::alloc::Global;
use vreg_groups::Vlen;

/// Why a file is no image.
fn text_of_fault(alloc: Global, refusal: ElfRefusal) -> Result<String, Status>
    ensures text { IfOk result (λ text. string_bytes text ≡ text_of_fault refusal) }
    ensures want { IfErr result (λ status. status ≡ NoMemory) }
{
    let ElfRefusal { error, evidence } = refusal;
    let reason = ImageReason(evidence);
    let refusal = Refusal { error, reason };
    Ok(format!(in alloc; "{refusal}")?)
}

/// Why a note spells no certificate.
fn text_of_reading(alloc: Global, note: &[u8], refusal: CertRefusal) -> Result<String, Status>
    requires { IsRefusal note.now refusal }
    ensures text { IfOk result (λ text.
        IsTextOfReading note.now refusal.error (string_bytes text)) }
    ensures want { IfErr result (λ status. status ≡ NoMemory) }
{
    let error = refusal.error;
    let reason = refusal_reason(note, refusal);
    let refusal = Refusal { error, reason };
    Ok(format!(in alloc; "{refusal}")?)
}

/// Why an image is refused with a certificate, and no text where it is not.
fn text_of_check(
    alloc: Global,
    image: &Image,
    certificate: &Certificate,
    vlen: Vlen,
) -> Result<String, Status>
    ensures text { IfOk result (λ text.
        IsTextOfCheck image.now certificate.now vlen (string_bytes text)) }
    ensures want { IfErr result (λ status. status ≡ NoMemory) }
{
    match check_reason(alloc, image, certificate, vlen)? {
        None => Ok(String::new(alloc)),
        Some(reason) => {
            let error = reason.explanation.error;
            let refusal = Refusal { error, reason };
            Ok(format!(in alloc; "{refusal}")?)
        }
    }
}

/// Why an image is refused, and no text where it is not.
fn text_of_image(alloc: Global, image: &Image, vlen: Vlen) -> Result<String, Status>
    ensures text { IfOk result (λ text. IsTextOfImage vlen image.now (string_bytes text)) }
    ensures want { IfErr result (λ status. status ≡ NoMemory) }
{
    let Some(note) = image.certificate() else {
        return Ok(format!(in alloc; "  wanted: a note with a certificate\n")?);
    };
    match cert_note::read_kept(alloc, note) {
        Ok(certificate) => text_of_check(alloc, image, &certificate, vlen),
        Err(refusal) => {
            if let CertError::NoMemory = refusal.error {
                return Err(Status::NoMemory);
            }
            text_of_reading(alloc, note, refusal)
        }
    }
}

/// Why a file is refused, and no text where it is not.
fn text_for(alloc: Global, file: &[u8], vlen: Vlen) -> Result<String, Status>
    ensures text { IfOk result (λ text. IsTextFor vlen file.now (string_bytes text)) }
    ensures want { IfErr result (λ status. status ≡ NoMemory) }
{
    match elf_image::read_kept(alloc, file) {
        Ok(image) => text_of_image(alloc, &image, vlen),
        Err(refusal) => {
            if let ElfError::NoMemory = refusal.error {
                return Err(Status::NoMemory);
            }
            text_of_fault(alloc, refusal)
        }
    }
}

/// Puts bytes over the start of others, as many as there is room for.
pub(crate) fn put_over(bytes: &[u8], out: &mut [u8])
    ensures { out.new ≡ put_over bytes.now out.old }
{
    let many = bytes.len().min(out.len());
    out[..many].copy_from_slice(&bytes[..many]);
}

/// Checks as [`rvvbox_check_raw`](crate::calls::rvvbox_check_raw) does, and puts into `text` why the
/// file is refused, in lines, or as much of it as there is room for; `needed` is how many bytes the
/// whole text has, none where the file is accepted.
#[unsafe(no_mangle)]
pub extern "C" fn rvvbox_explain_raw(
    alloc: Global,
    file: &[u8],
    vlen: u32,
    text: &mut [u8],
    needed: &mut usize,
) -> u32
    ensures told { result ≡ 0 → HasExplained vlen file.now text.old text.new needed.new }
    ensures at_once { IfSome (length_fault vlen) (λ fault. result ≡ code_of fault) }
    ensures answer { IsStatusOrWant (unwrap_or (length_fault vlen) Done) result }
    ensures refused { IsFailure result → (text.new ≡ text.old) × (needed.new ≡ needed.old) }
{
    let Some(vlen) = vlen_of(vlen) else {
        return Status::BadVlen.code();
    };
    match text_for(alloc, file, vlen) {
        Ok(words) => {
            put_over(words.as_bytes(), text);
            *needed = words.len();
            Status::Done.code()
        }
        Err(status) => status.code(),
    }
}
