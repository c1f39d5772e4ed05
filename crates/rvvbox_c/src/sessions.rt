//! Runs of a kernel that go on by a number of steps at a time, until they are closed.
ghost use Rattle.std.specs.Prelude.{◌≡◌, ◌≤◌, ◌+◌, Err, IfErr, IfOk, IfSome, IsSomeAnd, None};
ghost use Rattle.std.specs.Prelude.{false};
ghost use Rattle.std.specs.Result.{result_err};
ghost use Rattle.region_mem.specs.Memory.{args_of, byte_of};
ghost use Rattle.rvvbox_c.specs.Forms.{all_left, eight, forms_of};
ghost use Rattle.rvvbox_c.specs.Holds.{IsFailure};
ghost use Rattle.rvvbox_c.specs.Opened.{IsSameRun, back_refusal, back_refusal_of, progress_of};
ghost use Rattle.rvvbox_c.specs.Opened.{registers_told, stop_of};
ghost use Rattle.rvvbox_c.specs.Running.{run_kept};
ghost use Rattle.rvvbox_c.specs.Status.{code_of, plain, told_of};
ghost use Rattle.rvvbox_c.specs.declared.status.Status.TheVariants.{BadRange, NothingKept};
ghost use Rattle.sandbox_run.specs.AnySession.{run_in, vlenb_in};
ghost use Rattle.machine.specs.Run.{has_ended, outcome_from};

use crate::forms::{Forms, Slices, put_all};
use crate::opened::{Progress, Registers};
use crate::run_slot::RunSlot;
use crate::running::Run;
use crate::status::{Refusal, Status};
use region_mem::Args;
use std::alloc::Global;

/// Goes on for at most `most` steps. `progress` tells whether the run has ended, and how many steps
/// were done since it was opened. A run that has ended stays as it is.
#[unsafe(no_mangle)]
pub extern "C" fn rvvbox_go_on(
    alloc: Global,
    session: &mut Run,
    most: u64,
    progress: &mut Progress,
) -> u32
    ensures nothing { run_kept session.old.kept ≡ None → result ≡ code_of NothingKept }
    ensures done { IfSome (run_kept session.old.kept) (λ _. result ≡ 0) }
    ensures told { IfSome (run_kept session.old.kept)
        (λ o. IsSomeAnd (run_kept session.new.kept) (λ n.
        progress.new ≡ progress_of (run_in n.session))) }
    ensures outcome { IfSome (run_kept session.old.kept)
        (λ o. IsSomeAnd (run_kept session.new.kept) (λ n.
        outcome_from (vlenb_in o.session) most (run_in o.session).steps (run_in o.session).machine
        ≡ stop_of (has_ended (run_in n.session).machine) (run_in n.session))) }
    ensures most { IfSome (run_kept session.old.kept)
        (λ o. IsSomeAnd (run_kept session.new.kept) (λ n.
        (run_in n.session).steps ≤ (run_in o.session).steps + most)) }
    ensures all { IfSome (run_kept session.old.kept)
        (λ o. IsSomeAnd (run_kept session.new.kept) (λ n.
        has_ended (run_in n.session).machine ≡ false
        → (run_in n.session).steps ≡ (run_in o.session).steps + most)) }
    ensures within { IfSome (run_kept session.old.kept)
        (λ o. IsSomeAnd (run_kept session.new.kept) (λ n.
        (run_in n.session).steps ≤ (run_in n.session).bound)) }
    ensures same { IfSome (run_kept session.old.kept)
        (λ o. IsSomeAnd (run_kept session.new.kept) (IsSameRun o)) }
    ensures refused { IsFailure result → progress.new ≡ progress.old }
{
    let Some(mut held) = session.take(alloc) else {
        return Status::NothingKept.code();
    };
    let gone_on = held.go_on(most);
    session.keep(alloc, held);
    match gone_on {
        None => Status::NothingKept.code(),
        Some(told) => {
            *progress = told;
            Status::Done.code()
        }
    }
}

/// Tells the registers of a session as they stand.
#[unsafe(no_mangle)]
pub extern "C" fn rvvbox_registers_of(
    alloc: Global,
    session: &mut Run,
    registers: &mut Registers,
) -> u32
    ensures kept { run_kept session.new.kept ≡ run_kept session.old.kept }
    ensures nothing { run_kept session.old.kept ≡ None → result ≡ code_of NothingKept }
    ensures done { IfSome (run_kept session.old.kept) (λ _. result ≡ 0) }
    ensures told { IfSome (run_kept session.old.kept) (λ o.
        registers.new ≡ registers_told (run_in o.session)) }
    ensures refused { IsFailure result → registers.new ≡ registers.old }
{
    let Some(held) = session.take(alloc) else {
        return Status::NothingKept.code();
    };
    let at = held.registers();
    session.keep(alloc, held);
    match at {
        None => Status::NothingKept.code(),
        Some(told) => {
            *registers = told;
            Status::Done.code()
        }
    }
}

/// Tells the byte at an address of a session's memory, whatever the rights.
#[unsafe(no_mangle)]
pub extern "C" fn rvvbox_byte_of(
    alloc: Global,
    session: &mut Run,
    address: u32,
    byte: &mut u8,
) -> u32
    ensures kept { run_kept session.new.kept ≡ run_kept session.old.kept }
    ensures nothing { run_kept session.old.kept ≡ None → result ≡ code_of NothingKept }
    ensures there { IfSome (run_kept session.old.kept) (λ o.
        IfSome (byte_of address (run_in o.session).machine.memory) (λ _. result ≡ 0)) }
    ensures told { IfSome (run_kept session.old.kept) (λ o.
        IfSome (byte_of address (run_in o.session).machine.memory) (λ b. byte.new ≡ b)) }
    ensures nowhere { IfSome (run_kept session.old.kept) (λ o.
        byte_of address (run_in o.session).machine.memory ≡ None → result ≡ code_of BadRange) }
    ensures refused { IsFailure result → byte.new ≡ byte.old }
{
    let Some(held) = session.take(alloc) else {
        return Status::NothingKept.code();
    };
    let found = held.byte(address);
    session.keep(alloc, held);
    match found {
        None => Status::NothingKept.code(),
        Some(None) => Status::BadRange.code(),
        Some(Some(there)) => {
            *byte = there;
            Status::Done.code()
        }
    }
}

/// Ends a run wherever it stands, and answers its arguments, where its bytes can be put back to these.
fn closed(alloc: Global, session: &mut Run, forms: &Forms, bytes: &Slices) -> Result<Args, Refusal>
    ensures nothing { run_kept session.old.kept ≡ None → result ≡ Err (plain NothingKept) }
    ensures told { IfSome (run_kept session.old.kept) (λ o.
        result_err result ≡ back_refusal_of o.sizes forms.now bytes.now) }
    ensures failed { IfErr result (λ refusal. IsFailure refusal.status) }
    ensures over { IfOk result (λ _. run_kept session.new.kept ≡ None) }
    ensures kept { IfErr result (λ _. run_kept session.new.kept ≡ run_kept session.old.kept) }
    ensures back { IfOk result (λ args. IsSomeAnd (run_kept session.old.kept) (λ o.
        args.places ≡ args_of (run_in o.session).machine.memory)) }
{
    let Some(mut held) = session.take(alloc) else {
        return Err(Refusal::of(Status::NothingKept));
    };
    let closed = held.close(forms, bytes);
    session.keep(alloc, held);
    closed
}

/// Ends a session wherever its run stands: where `forms` have a kind that is put back, the bytes of
/// `b0` to `b7` there become those of the run as they stand. The session keeps no run then, but the
/// stack for the next one. Where it is refused, `refusal` tells why, and all else is as it was.
#[unsafe(no_mangle)]
pub extern "C" fn rvvbox_close_raw(
    alloc: Global,
    session: &mut Run,
    forms: &Forms,
    b0: &mut [u8],
    b1: &mut [u8],
    b2: &mut [u8],
    b3: &mut [u8],
    b4: &mut [u8],
    b5: &mut [u8],
    b6: &mut [u8],
    b7: &mut [u8],
    refusal: &mut Refusal,
) -> u32
    ensures status { result ≡ refusal.new.status }
    ensures nothing { run_kept session.old.kept ≡ None → refusal.new ≡ plain NothingKept }
    ensures answer { IfSome (run_kept session.old.kept) (λ o. refusal.new ≡ told_of
        (back_refusal o.sizes forms.now
        b0.old b1.old b2.old b3.old b4.old b5.old b6.old b7.old)) }
    ensures over { result ≡ 0 → run_kept session.new.kept ≡ None }
    ensures put { result ≡ 0 → IsSomeAnd (run_kept session.old.kept) (λ o.
        eight b0.new b1.new b2.new b3.new b4.new b5.new b6.new b7.new
        ≡ all_left (args_of (run_in o.session).machine.memory) (forms_of forms.now)
        (eight b0.old b1.old b2.old b3.old b4.old b5.old b6.old b7.old)) }
    ensures kept { IsFailure result → run_kept session.new.kept ≡ run_kept session.old.kept }
    ensures kept0 { IsFailure result → b0.new ≡ b0.old }
    ensures kept1 { IsFailure result → b1.new ≡ b1.old }
    ensures kept2 { IsFailure result → b2.new ≡ b2.old }
    ensures kept3 { IsFailure result → b3.new ≡ b3.old }
    ensures kept4 { IsFailure result → b4.new ≡ b4.old }
    ensures kept5 { IsFailure result → b5.new ≡ b5.old }
    ensures kept6 { IsFailure result → b6.new ≡ b6.old }
    ensures kept7 { IsFailure result → b7.new ≡ b7.old }
{
    let bytes = Slices {
        a0: &*b0,
        a1: &*b1,
        a2: &*b2,
        a3: &*b3,
        a4: &*b4,
        a5: &*b5,
        a6: &*b6,
        a7: &*b7,
    };
    match closed(alloc, session, forms, &bytes) {
        Ok(args) => {
            put_all(&args.places, forms, b0, b1, b2, b3, b4, b5, b6, b7);
            *refusal = Refusal::of(Status::Done);
            Status::Done.code()
        }
        Err(told) => {
            *refusal = told;
            told.status
        }
    }
}

/// Lets go a session wherever its run stands, or does nothing where the pointer is null.
#[unsafe(no_mangle)]
pub extern "C" fn rvvbox_drop(alloc: Global, session: RunSlot) {
    session.close(alloc);
}
