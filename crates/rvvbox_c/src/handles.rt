//! An image that is accepted once, and kept for many runs on any number of threads.
ghost use Rattle.std.specs.Prelude.{◌≡◌, IfErr, IfOk, IfSome, IsErrAnd, IsSomeAnd, None};
ghost use Rattle.rvvbox_c.specs.Accept.{IsAnswer, IsRefusalOf, answer_for, refused_at_once};
ghost use Rattle.rvvbox_c.specs.Holds.{IsFailure, IsKeptOf};
ghost use Rattle.rvvbox_c.specs.Slots.{image_kept};
ghost use Rattle.rvvbox_c.specs.Status.{IsStatusOrWant, code_of};
ghost use Rattle.rvvbox_c.specs.declared.status.Status.TheVariants.{Done, NoMemory, NothingKept};

use crate::accept::{accept, vlen_of};
use crate::kept::{Kernel, another};
use crate::slot::Slot;
use crate::status::{Refusal, Status};
use std::alloc::{AllocError, Global};
use std::sync::Arc;

/// The kernel of the image that `file` spells, where it passes the check.
fn kernel_of(alloc: Global, file: &[u8], bits: u32) -> Result<Box<Kernel>, Refusal>
    ensures kept { IfOk result (λ b. IsKeptOf file.now bits (image_kept b.value.kept)) }
    ensures failed { IfErr result (λ refusal. IsFailure refusal.status) }
    ensures at_once { IfSome (refused_at_once bits file.now)
        (λ told. IsErrAnd result (λ refusal. refusal ≡ told)) }
    ensures told { IfErr result (IsRefusalOf (answer_for bits file.now)) }
{
    let vlen = vlen_of(bits).ok_or(Refusal::of(Status::BadVlen))?;
    let accepted = accept(alloc, file, vlen)?;
    let Ok(shared) = Arc::new(alloc, accepted) else {
        return Err(Refusal::of(Status::NoMemory));
    };
    match Kernel::made(alloc, shared) {
        Err(_) => Err(Refusal::of(Status::NoMemory)),
        Ok(kernel) => Ok(kernel),
    }
}

/// Checks as [`rvvbox_check_raw`](crate::calls::rvvbox_check_raw) does, and puts a kernel of what is
/// accepted into `out`, which lets go the one that was there. Where the image is refused `out`
/// stays as it is, and `refusal` tells why.
#[unsafe(no_mangle)]
pub extern "C" fn rvvbox_accept_raw(
    alloc: Global,
    file: &[u8],
    vlen: u32,
    out: &mut Slot,
    refusal: &mut Refusal,
) -> u32
    ensures status { result ≡ refusal.new.status }
    ensures at_once { IfSome (refused_at_once vlen file.now) (λ told. refusal.new ≡ told) }
    ensures answer { IsAnswer (answer_for vlen file.now) refusal.new }
    ensures kept { result ≡ 0 → IsSomeAnd out.new.held
        (λ k. IsKeptOf file.now vlen (image_kept k.kept)) }
    ensures refused { IsFailure result → out.new.held ≡ out.old.held }
{
    *refusal = match kernel_of(alloc, file, vlen) {
        Ok(kernel) => {
            out.put(alloc, kernel);
            Refusal::of(Status::Done)
        }
        Err(refusal) => refusal,
    };
    refusal.status
}

/// One more kernel of the image that `kernel` keeps.
fn shared(alloc: Global, kernel: &mut Kernel) -> Result<Box<Kernel>, Status>
    ensures same { image_kept kernel.new.kept ≡ image_kept kernel.old.kept }
    ensures shared { IfOk result (λ b. image_kept b.value.kept ≡ image_kept kernel.old.kept) }
    ensures nothing { kernel.old.kept ≡ None → IsErrAnd result (λ status. status ≡ NothingKept) }
    ensures some { IfSome kernel.old.kept (λ _. IfErr result (λ status. status ≡ NoMemory)) }
{
    let Some(held) = kernel.take(alloc) else {
        return Err(Status::NothingKept);
    };
    let second = another(alloc, &held);
    kernel.keep(alloc, held);
    match second {
        Ok(second) => Ok(second),
        Err(AllocError) => Err(Status::NoMemory),
    }
}

/// Puts one more kernel of the same image into `out`, which lets go the one that was there: for
/// another thread, say. Each is let go by itself, and the image with the last of them.
#[unsafe(no_mangle)]
pub extern "C" fn rvvbox_share(alloc: Global, kernel: &mut Kernel, out: &mut Slot) -> u32
    ensures same { image_kept kernel.new.kept ≡ image_kept kernel.old.kept }
    ensures shared { result ≡ 0 → IsSomeAnd out.new.held
        (λ k. image_kept k.kept ≡ image_kept kernel.old.kept) }
    ensures refused { IsFailure result → out.new.held ≡ out.old.held }
    ensures nothing { kernel.old.kept ≡ None → result ≡ code_of NothingKept }
    ensures answer { IfSome kernel.old.kept (λ _. IsStatusOrWant Done result) }
{
    match shared(alloc, kernel) {
        Ok(second) => {
            out.put(alloc, second);
            Status::Done.code()
        }
        Err(status) => status.code(),
    }
}

/// Lets go a kernel, or does nothing where the pointer is null.
#[unsafe(no_mangle)]
pub extern "C" fn rvvbox_free(alloc: Global, kernel: Slot) {
    kernel.close(alloc);
}
