//! Runs of a kernel that are opened on copies of the host's bytes, in a session of their own, or in
//! one that there is.
ghost use Rattle.std.specs.Prelude.{◌≡◌, IfErr, IfOk, IfSome, IsErrAnd, IsSomeAnd, None, Some};
ghost use Rattle.std.specs.Option.{option_map};
ghost use Rattle.rvvbox_c.specs.Answers.{asked_refusal, kept_at_once, kept_refusal, run_refusal};
ghost use Rattle.rvvbox_c.specs.Forms.{bytes_of, eight};
ghost use Rattle.rvvbox_c.specs.Holds.{IsFailure};
ghost use Rattle.rvvbox_c.specs.Opened.{sizes_in, sizes_of};
ghost use Rattle.rvvbox_c.specs.Running.{run_kept};
ghost use Rattle.rvvbox_c.specs.Runs.{open_refusal};
ghost use Rattle.rvvbox_c.specs.Opening.{HasOpened};
ghost use Rattle.rvvbox_c.specs.Slots.{image_kept};
ghost use Rattle.rvvbox_c.specs.Status.{IsRefused, IsThisOrWant, plain, told_of};
ghost use Rattle.rvvbox_c.specs.declared.status.Status.TheVariants.{NoMemory};
ghost use Rattle.sandbox_run.specs.AnySession.{run_in, vlenb_in};
ghost use Rattle.sandbox_run.specs.Session.{IsOpened, open_fault};
ghost use Rattle.vreg_groups.specs.VectorLength.{vlenb_of};

use crate::forms::{Forms, Slices, arguments};
use crate::kept::Kernel;
use crate::opened::{Open, Sizes};
use crate::run_slot::RunSlot;
use crate::running::Run;
use crate::runs::{asked, not_opened};
use crate::status::{Refusal, Status};
use block_checker::Accepted;
use region_mem::Args;
use sandbox_run::{AnySession, Spare};
use std::alloc::{AllocError, Global};
use std::sync::Arc;
use vreg_groups::Agnostic;

/// A run of an accepted image on arguments, at its first state, on what `spare` holds.
fn session_of(
    alloc: Global,
    accepted: &Accepted,
    forms: &Forms,
    args: Args,
    agnostic: Agnostic,
    max: u64,
    spare: &mut Option<Spare>,
) -> Result<AnySession, Refusal>
    ensures vlenb { IfOk result (λ s. vlenb_in s ≡ vlenb_of accepted.now.vlen) }
    ensures opened { IfOk result (λ s. IsOpened (vlenb_of accepted.now.vlen) agnostic accepted.now
        args.places max (run_in s)) }
    ensures refused { IsRefused (option_map (open_refusal accepted.now forms.now)
        (open_fault (vlenb_of accepted.now.vlen) accepted.now args.places max)) result }
    ensures failed { IfErr result (λ refusal. IsFailure refusal.status) }
{
    match AnySession::open_with(alloc, accepted, args, agnostic, max, spare) {
        Ok(session) => Ok(session),
        Err((error, _args)) => Err(not_opened(accepted, forms, error)),
    }
}

/// A session of a run, in memory of its own.
fn run_made(alloc: Global, opened: Open) -> Result<Box<Run>, Refusal>
    ensures made { IfOk result (λ b. run_kept b.value.kept ≡ Some opened) }
    ensures refused { IfErr result (λ refusal. refusal ≡ plain NoMemory) }
    ensures failed { IfErr result (λ refusal. IsFailure refusal.status) }
{
    match Run::made(alloc, opened) {
        Ok(run) => Ok(run),
        Err(AllocError) => Err(Refusal::of(Status::NoMemory)),
    }
}

/// A run of an accepted image on what the forms name, opened on what `spare` holds.
fn open_of(
    alloc: Global,
    accepted: &Accepted,
    forms: &Forms,
    agnostic: u32,
    max: u64,
    bytes: &Slices,
    spare: &mut Option<Spare>,
) -> Result<Open, Refusal>
    ensures opened { IfOk result (λ o. HasOpened agnostic accepted.now forms.now
        (bytes_of bytes.now) max o.session) }
    ensures sizes { IfOk result (λ o. o.sizes ≡ sizes_of forms.now bytes.now) }
    ensures at_once { IfSome (asked_refusal agnostic forms.now)
        (λ refusal. IsErrAnd result (λ told. told ≡ refusal)) }
    ensures refused { IsRefused (run_refusal agnostic max forms.now
        (bytes_of bytes.now) (bytes_of bytes.now) accepted.now) result }
    ensures failed { IfErr result (λ refusal. IsFailure refusal.status) }
{
    let agnostic = asked(agnostic, forms)?;
    let puts = *bytes;
    let args = arguments(alloc, forms, bytes, &puts)?;
    let session = session_of(alloc, accepted, forms, args, agnostic, max, spare)?;
    let sizes = Sizes::of(forms, bytes);
    Ok(Open { session, sizes })
}

/// A run of what a kernel keeps, opened on what `spare` holds.
fn open_of_kept(
    alloc: Global,
    kernel: &mut Kernel,
    forms: &Forms,
    agnostic: u32,
    max: u64,
    bytes: &Slices,
    spare: &mut Option<Spare>,
) -> Result<Open, Refusal>
    ensures kept { kernel.new.kept ≡ kernel.old.kept }
    ensures opened { IfOk result (λ o. IsSomeAnd (image_kept kernel.old.kept) (λ a.
        HasOpened agnostic a forms.now
        (bytes_of bytes.now) max o.session)) }
    ensures sizes { IfOk result (λ o. o.sizes ≡ sizes_of forms.now bytes.now) }
    ensures at_once { IfSome (kept_at_once agnostic forms.now (image_kept kernel.old.kept))
        (λ refusal. IsErrAnd result (λ told. told ≡ refusal)) }
    ensures refused { IsRefused (kept_refusal agnostic max forms.now
        (bytes_of bytes.now) (bytes_of bytes.now)
        (image_kept kernel.old.kept)) result }
    ensures failed { IfErr result (λ refusal. IsFailure refusal.status) }
{
    match kernel.take(alloc) {
        None => Err(Refusal::of(Status::NothingKept)),
        Some(held) => {
            let owner: &Arc<Accepted> = held.accepted();
            let accepted: &Accepted = owner;
            let opened = open_of(alloc, accepted, forms, agnostic, max, bytes, spare);
            kernel.keep(alloc, held);
            opened
        }
    }
}

/// A session of what a kernel keeps.
fn run_of_kept(
    alloc: Global,
    kernel: &mut Kernel,
    forms: &Forms,
    agnostic: u32,
    max: u64,
    bytes: &Slices,
) -> Result<Box<Run>, Refusal>
    ensures kept { kernel.new.kept ≡ kernel.old.kept }
    ensures opened { IfOk result (λ b. IsSomeAnd (image_kept kernel.old.kept) (λ a.
        IsSomeAnd (run_kept b.value.kept) (λ o. HasOpened agnostic a forms.now
        (bytes_of bytes.now) max o.session))) }
    ensures sizes { IfOk result (λ b. IsSomeAnd (run_kept b.value.kept) (λ o.
        o.sizes ≡ sizes_of forms.now bytes.now)) }
    ensures at_once { IfSome (kept_at_once agnostic forms.now (image_kept kernel.old.kept))
        (λ refusal. IsErrAnd result (λ told. told ≡ refusal)) }
    ensures refused { IsRefused (kept_refusal agnostic max forms.now
        (bytes_of bytes.now) (bytes_of bytes.now)
        (image_kept kernel.old.kept)) result }
    ensures failed { IfErr result (λ refusal. IsFailure refusal.status) }
{
    let opened = open_of_kept(alloc, kernel, forms, agnostic, max, bytes, &mut None)?;
    run_made(alloc, opened)
}

/// Opens a run of what a kernel keeps, on copies of what `forms` name of `r0` to `r7`, and puts a
/// session of it into `out`, which lets go the one that was there. Where it is refused, `refusal`
/// tells why, and all else is as it was. The kernel may go before the session does.
#[unsafe(no_mangle)]
pub extern "C" fn rvvbox_open_raw(
    alloc: Global,
    kernel: &mut Kernel,
    forms: &Forms,
    agnostic: u32,
    max: u64,
    r0: &[u8],
    r1: &[u8],
    r2: &[u8],
    r3: &[u8],
    r4: &[u8],
    r5: &[u8],
    r6: &[u8],
    r7: &[u8],
    out: &mut RunSlot,
    refusal: &mut Refusal,
) -> u32
    ensures kept { kernel.new.kept ≡ kernel.old.kept }
    ensures status { result ≡ refusal.new.status }
    ensures opened { result ≡ 0 → IsSomeAnd out.new.held (λ r.
        IsSomeAnd (image_kept kernel.old.kept) (λ a. IsSomeAnd (run_kept r.kept) (λ o.
        HasOpened agnostic a forms.now
        (eight r0.now r1.now r2.now r3.now r4.now r5.now r6.now r7.now) max o.session))) }
    ensures sizes { result ≡ 0 → IsSomeAnd out.new.held (λ r. IsSomeAnd (run_kept r.kept) (λ o.
        o.sizes ≡ sizes_in forms.now
        r0.now r1.now r2.now r3.now r4.now r5.now r6.now r7.now)) }
    ensures at_once { IfSome (kept_at_once agnostic forms.now (image_kept kernel.old.kept))
        (λ told. refusal.new ≡ told) }
    ensures answer { IsThisOrWant (told_of (kept_refusal agnostic max forms.now
        (eight r0.now r1.now r2.now r3.now r4.now r5.now r6.now r7.now)
        (eight r0.now r1.now r2.now r3.now r4.now r5.now r6.now r7.now)
        (image_kept kernel.old.kept))) refusal.new }
    ensures refused { IsFailure result → out.new.held ≡ out.old.held }
{
    let bytes = Slices {
        a0: r0,
        a1: r1,
        a2: r2,
        a3: r3,
        a4: r4,
        a5: r5,
        a6: r6,
        a7: r7,
    };
    match run_of_kept(alloc, kernel, forms, agnostic, max, &bytes) {
        Ok(run) => {
            out.put(alloc, run);
            *refusal = Refusal::of(Status::Done);
            Status::Done.code()
        }
        Err(told) => {
            *refusal = told;
            told.status
        }
    }
}

/// A run of what a kernel keeps, in a session that there is.
fn opened_again(
    alloc: Global,
    kernel: &mut Kernel,
    forms: &Forms,
    agnostic: u32,
    max: u64,
    bytes: &Slices,
    session: &mut Run,
) -> Result<(), Refusal>
    ensures kept { kernel.new.kept ≡ kernel.old.kept }
    ensures opened { IfOk result (λ _. IsSomeAnd (image_kept kernel.old.kept) (λ a.
        IsSomeAnd (run_kept session.new.kept) (λ o. HasOpened agnostic a forms.now
        (bytes_of bytes.now) max o.session))) }
    ensures sizes { IfOk result (λ _. IsSomeAnd (run_kept session.new.kept) (λ o.
        o.sizes ≡ sizes_of forms.now bytes.now)) }
    ensures at_once { IfSome (kept_at_once agnostic forms.now (image_kept kernel.old.kept))
        (λ refusal. IsErrAnd result (λ told. told ≡ refusal)) }
    ensures refused { IsRefused (kept_refusal agnostic max forms.now
        (bytes_of bytes.now) (bytes_of bytes.now)
        (image_kept kernel.old.kept)) result }
    ensures failed { IfErr result (λ refusal. IsFailure refusal.status) }
    ensures same { IfErr result (λ _. run_kept session.new.kept ≡ run_kept session.old.kept) }
{
    let mut spare = session.take_spare(alloc);
    let opened = open_of_kept(alloc, kernel, forms, agnostic, max, bytes, &mut spare);
    session.hold_spare(alloc, spare);
    match session.put(alloc, opened?) {
        Ok(()) => Ok(()),
        Err(AllocError) => Err(Refusal::of(Status::NoMemory)),
    }
}

/// Opens a run as [`rvvbox_open_raw`] does, in a session that there is, in place of the run that it
/// keeps. A closed run's stack, and the words that it knew, are used again. Where it is refused,
/// `refusal` tells why, and all else is as it was.
#[unsafe(no_mangle)]
pub extern "C" fn rvvbox_open_again_raw(
    alloc: Global,
    kernel: &mut Kernel,
    forms: &Forms,
    agnostic: u32,
    max: u64,
    r0: &[u8],
    r1: &[u8],
    r2: &[u8],
    r3: &[u8],
    r4: &[u8],
    r5: &[u8],
    r6: &[u8],
    r7: &[u8],
    session: &mut Run,
    refusal: &mut Refusal,
) -> u32
    ensures kept { kernel.new.kept ≡ kernel.old.kept }
    ensures status { result ≡ refusal.new.status }
    ensures opened { result ≡ 0 → IsSomeAnd (image_kept kernel.old.kept) (λ a.
        IsSomeAnd (run_kept session.new.kept) (λ o. HasOpened agnostic a forms.now
        (eight r0.now r1.now r2.now r3.now r4.now r5.now r6.now r7.now) max o.session)) }
    ensures sizes { result ≡ 0 → IsSomeAnd (run_kept session.new.kept) (λ o.
        o.sizes ≡ sizes_in forms.now
        r0.now r1.now r2.now r3.now r4.now r5.now r6.now r7.now) }
    ensures at_once { IfSome (kept_at_once agnostic forms.now (image_kept kernel.old.kept))
        (λ told. refusal.new ≡ told) }
    ensures answer { IsThisOrWant (told_of (kept_refusal agnostic max forms.now
        (eight r0.now r1.now r2.now r3.now r4.now r5.now r6.now r7.now)
        (eight r0.now r1.now r2.now r3.now r4.now r5.now r6.now r7.now)
        (image_kept kernel.old.kept))) refusal.new }
    ensures refused { IsFailure result
        → run_kept session.new.kept ≡ run_kept session.old.kept }
{
    let bytes = Slices {
        a0: r0,
        a1: r1,
        a2: r2,
        a3: r3,
        a4: r4,
        a5: r5,
        a6: r6,
        a7: r7,
    };
    match opened_again(alloc, kernel, forms, agnostic, max, &bytes, session) {
        Ok(()) => {
            *refusal = Refusal::of(Status::Done);
            Status::Done.code()
        }
        Err(told) => {
            *refusal = told;
            told.status
        }
    }
}
