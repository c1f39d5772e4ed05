//! A run of a kernel on the host's own bytes.
ghost use Rattle.std.specs.Prelude.{◌≡◌, ◌≤◌, IfErr, IfOk, IfSome, IsErrAnd, IsSomeAnd, Some};
ghost use Rattle.std.specs.Option.{option_map};
ghost use Rattle.std.specs.Result.{result_err};
ghost use Rattle.rvvbox_c.specs.Accept.{agnostic_at};
ghost use Rattle.rvvbox_c.specs.Answers.{asked_refusal, kept_at_once, kept_refusal, run_refusal};
ghost use Rattle.rvvbox_c.specs.Forms.{all_left, bytes_of, eight, forms_of};
ghost use Rattle.rvvbox_c.specs.Holds.{IsFailure};
ghost use Rattle.rvvbox_c.specs.Runs.{Gives, HasRun, open_refusal};
ghost use Rattle.rvvbox_c.specs.Slots.{image_kept};
ghost use Rattle.rvvbox_c.specs.Status.{IsRefused, IsThisOrWant, told_of};
ghost use Rattle.sandbox_run.specs.Session.{open_fault};
ghost use Rattle.vreg_groups.specs.VectorLength.{IsVlenb, vlenb_of};

use crate::accept::agnostic_of;
use crate::facts::most_of;
use crate::forms::{Forms, Slices, arguments, put_all};
use crate::kept::Kernel;
use crate::status::{Refusal, Status};
use block_checker::Accepted;
use region_mem::Args;
use sandbox_run::{OpenError, Session, Spare};
use std::alloc::Global;
use std::sync::Arc;
use vreg_groups::{Agnostic, Vlen};

/// Why no run was begun.
pub(crate) fn not_opened(accepted: &Accepted, forms: &Forms, error: OpenError) -> Refusal
    ensures told { result ≡ open_refusal accepted.now forms.now error }
    ensures failed { IsFailure result.status }
{
    match error {
        OpenError::WrongKind(place) => Refusal::at(Status::WrongKind, place),
        OpenError::ScalarOutOfInterval(place) => Refusal::at(Status::ScalarOutOfInterval, place),
        OpenError::WrongSize(place) => Refusal::at(Status::WrongSize, place),
        OpenError::BoundTooLarge => Refusal::too_long(most_of(accepted, &forms.numbers())),
        OpenError::WrongVlen => Refusal::of(Status::WrongVlen),
        OpenError::NoMemory => Refusal::of(Status::NoMemory),
    }
}

/// Runs an accepted image at its length of vector registers.
fn run_at<const VLENB: usize>(
    alloc: Global,
    accepted: &Accepted,
    forms: &Forms,
    args: Args,
    agnostic: Agnostic,
    max: u64,
    spare: &mut Option<Spare>,
) -> Result<(u64, Args), Refusal>
    requires { IsVlenb VLENB }
    ensures ran { IfOk result (λ r.
        Gives VLENB agnostic accepted.now args.places r.0 r.1.places) }
    ensures within { IfOk result (λ r. r.0 ≤ max) }
    ensures refused { IsRefused (option_map (open_refusal accepted.now forms.now)
        (open_fault VLENB accepted.now args.places max)) result }
    ensures failed { IfErr result (λ refusal. IsFailure refusal.status) }
{
    match Session::<VLENB>::open_with(alloc, accepted, args, agnostic, max, spare) {
        Ok(mut session) => {
            let steps = session.run();
            Ok((steps, session.close_into(spare)))
        }
        Err((error, _args)) => Err(not_opened(accepted, forms, error)),
    }
}

/// Runs an accepted image on arguments.
fn ran(
    alloc: Global,
    accepted: &Accepted,
    forms: &Forms,
    args: Args,
    agnostic: Agnostic,
    max: u64,
    spare: &mut Option<Spare>,
) -> Result<(u64, Args), Refusal>
    ensures ran { IfOk result (λ r. Gives (vlenb_of accepted.now.vlen) agnostic accepted.now
        args.places r.0 r.1.places) }
    ensures within { IfOk result (λ r. r.0 ≤ max) }
    ensures refused { IsRefused (option_map (open_refusal accepted.now forms.now)
        (open_fault (vlenb_of accepted.now.vlen) accepted.now args.places max)) result }
    ensures failed { IfErr result (λ refusal. IsFailure refusal.status) }
{
    match accepted.vlen() {
        Vlen::V128 => run_at::<16>(alloc, accepted, forms, args, agnostic, max, spare),
        Vlen::V256 => run_at::<32>(alloc, accepted, forms, args, agnostic, max, spare),
        Vlen::V512 => run_at::<64>(alloc, accepted, forms, args, agnostic, max, spare),
    }
}

/// What is done with agnostic elements, where that is a setting and each form is of a kind.
pub(crate) fn asked(agnostic: u32, forms: &Forms) -> Result<Agnostic, Refusal>
    ensures set { IfOk result (λ set. agnostic_at agnostic ≡ Some set) }
    ensures refused { result_err result ≡ asked_refusal agnostic forms.now }
    ensures failed { IfErr result (λ refusal. IsFailure refusal.status) }
{
    let Some(agnostic) = agnostic_of(agnostic) else {
        return Err(Refusal::of(Status::BadAgnostic));
    };
    match forms.place_of_no_kind() {
        Some(place) => Err(Refusal::at(Status::BadKind, place)),
        None => Ok(agnostic),
    }
}

/// One run of an accepted image on copies of the bytes: its steps, and what it leaves of the arguments.
fn run_one(
    alloc: Global,
    accepted: &Accepted,
    forms: &Forms,
    agnostic: u32,
    max: u64,
    spare: &mut Option<Spare>,
    reads: &Slices,
    puts: &Slices,
) -> Result<(u64, Args), Refusal>
    ensures ran { IfOk result (λ r. HasRun agnostic accepted.now forms.now
        (bytes_of reads.now) (bytes_of puts.now)
        (all_left r.1.places (forms_of forms.now) (bytes_of puts.now)) r.0) }
    ensures within { IfOk result (λ r. r.0 ≤ max) }
    ensures at_once { IfSome (asked_refusal agnostic forms.now)
        (λ refusal. IsErrAnd result (λ told. told ≡ refusal)) }
    ensures refused { IsRefused (run_refusal agnostic max forms.now
        (bytes_of reads.now) (bytes_of puts.now) accepted.now) result }
    ensures failed { IfErr result (λ refusal. IsFailure refusal.status) }
{
    let agnostic = asked(agnostic, forms)?;
    let args = arguments(alloc, forms, reads, puts)?;
    ran(alloc, accepted, forms, args, agnostic, max, spare)
}

/// One run of what a kernel keeps, in the same way.
fn run_kept(
    alloc: Global,
    kernel: &mut Kernel,
    forms: &Forms,
    agnostic: u32,
    max: u64,
    reads: &Slices,
    puts: &Slices,
) -> Result<(u64, Args), Refusal>
    ensures kept { kernel.new.kept ≡ kernel.old.kept }
    ensures ran { IfOk result (λ r. IsSomeAnd (image_kept kernel.old.kept) (λ a.
        HasRun agnostic a forms.now
        (bytes_of reads.now) (bytes_of puts.now)
        (all_left r.1.places (forms_of forms.now) (bytes_of puts.now)) r.0)) }
    ensures within { IfOk result (λ r. r.0 ≤ max) }
    ensures at_once { IfSome (kept_at_once agnostic forms.now (image_kept kernel.old.kept))
        (λ refusal. IsErrAnd result (λ told. told ≡ refusal)) }
    ensures refused { IsRefused (kept_refusal agnostic max forms.now
        (bytes_of reads.now) (bytes_of puts.now)
        (image_kept kernel.old.kept)) result }
    ensures failed { IfErr result (λ refusal. IsFailure refusal.status) }
{
    match kernel.take(alloc) {
        None => Err(Refusal::of(Status::NothingKept)),
        Some(mut held) => {
            let mut spare = held.take_spare();
            let owner: &Arc<Accepted> = held.accepted();
            let accepted: &Accepted = owner;
            let ran = run_one(
                alloc, accepted, forms, agnostic, max, &mut spare, reads, puts,
            );
            held.hold_spare(spare);
            kernel.keep(alloc, held);
            ran
        }
    }
}

/// Runs what a kernel keeps, once, on eight arguments: each is `forms` at its place, with bytes of
/// `r0` to `r7` where they are only read, and of `b0` to `b7` where they are put back after the run.
/// Where it is refused, `refusal` tells why, and all else is as it was.
#[unsafe(no_mangle)]
pub extern "C" fn rvvbox_run_raw(
    alloc: Global,
    kernel: &mut Kernel,
    forms: &Forms,
    agnostic: u32,
    max: u64,
    r0: &[u8],
    r1: &[u8],
    r2: &[u8],
    r3: &[u8],
    r4: &[u8],
    r5: &[u8],
    r6: &[u8],
    r7: &[u8],
    b0: &mut [u8],
    b1: &mut [u8],
    b2: &mut [u8],
    b3: &mut [u8],
    b4: &mut [u8],
    b5: &mut [u8],
    b6: &mut [u8],
    b7: &mut [u8],
    steps: &mut u64,
    refusal: &mut Refusal,
) -> u32
    ensures kept { kernel.new.kept ≡ kernel.old.kept }
    ensures status { result ≡ refusal.new.status }
    ensures ran { result ≡ 0 → IsSomeAnd (image_kept kernel.old.kept) (λ a.
        HasRun agnostic a forms.now
        (eight r0.now r1.now r2.now r3.now r4.now r5.now r6.now r7.now)
        (eight b0.old b1.old b2.old b3.old b4.old b5.old b6.old b7.old)
        (eight b0.new b1.new b2.new b3.new b4.new b5.new b6.new b7.new) steps.new) }
    ensures within { result ≡ 0 → steps.new ≤ max }
    ensures at_once { IfSome (kept_at_once agnostic forms.now (image_kept kernel.old.kept))
        (λ told. refusal.new ≡ told) }
    ensures answer { IsThisOrWant (told_of (kept_refusal agnostic max forms.now
        (eight r0.now r1.now r2.now r3.now r4.now r5.now r6.now r7.now)
        (eight b0.old b1.old b2.old b3.old b4.old b5.old b6.old b7.old)
        (image_kept kernel.old.kept))) refusal.new }
    ensures steps { IsFailure result → steps.new ≡ steps.old }
    ensures kept0 { IsFailure result → b0.new ≡ b0.old }
    ensures kept1 { IsFailure result → b1.new ≡ b1.old }
    ensures kept2 { IsFailure result → b2.new ≡ b2.old }
    ensures kept3 { IsFailure result → b3.new ≡ b3.old }
    ensures kept4 { IsFailure result → b4.new ≡ b4.old }
    ensures kept5 { IsFailure result → b5.new ≡ b5.old }
    ensures kept6 { IsFailure result → b6.new ≡ b6.old }
    ensures kept7 { IsFailure result → b7.new ≡ b7.old }
{
    let reads = Slices {
        a0: r0,
        a1: r1,
        a2: r2,
        a3: r3,
        a4: r4,
        a5: r5,
        a6: r6,
        a7: r7,
    };
    let puts = Slices {
        a0: &*b0,
        a1: &*b1,
        a2: &*b2,
        a3: &*b3,
        a4: &*b4,
        a5: &*b5,
        a6: &*b6,
        a7: &*b7,
    };
    match run_kept(alloc, kernel, forms, agnostic, max, &reads, &puts) {
        Ok((done, args)) => {
            *steps = done;
            *refusal = Refusal::of(Status::Done);
            put_all(&args.places, forms, b0, b1, b2, b3, b4, b5, b6, b7);
            Status::Done.code()
        }
        Err(told) => {
            *refusal = told;
            told.status
        }
    }
}
