//! Runs of any image, accepted or not.
ghost use Rattle.std.specs.Prelude.{◌≡◌, ◌∷◌, [], IfErr, IfOk, IfSome, IsErrAnd, Some, false, min};
ghost use Rattle.std.specs.Prelude.{length, true};
ghost use Rattle.std.specs.Option.{option_map};
ghost use Rattle.std.specs.Result.{result_err};
ghost use Rattle.region_mem.specs.Parameter.{AreArguments, parameters_of};
ghost use Rattle.vreg_groups.specs.VectorLength.{IsVlenb, vlenb_of};
ghost use Rattle.rvvbox_c.specs.Accept.{agnostic_at, vlen_at};
ghost use Rattle.rvvbox_c.specs.Answers.{IsTryAnswer, asked_to_try, size_fault, tried_at_once};
ghost use Rattle.rvvbox_c.specs.Answers.{try_refusal};
ghost use Rattle.rvvbox_c.specs.Forms.{all_in, bytes_of, eight, forms_of};
ghost use Rattle.rvvbox_c.specs.Status.{IsRefused, code_of, plain};
ghost use Rattle.rvvbox_c.specs.Tries.{HasTried, IsTry, fault_number as number_of_fault, is_tried};
ghost use Rattle.rvvbox_c.specs.Tries.{param_in, params_in, size_in, stopped_at, tried_from};
ghost use Rattle.rvvbox_c.specs.Tries.{tried_of};
ghost use Rattle.rvvbox_c.specs.declared.status.Status.TheVariants.{NoMemory};

use crate::calls::Setting;
use crate::forms::{Form, Forms, Slices, arguments, put_all};
use crate::status::{Refusal, Status};
use elf_image::Image;
use region_mem::{Args, Fault, Mode, Param, Parameters};
use sandbox_run::{Final, Outcome, try_run};
use std::alloc::Global;
use vreg_groups::{Agnostic, Vlen};

/// Where a tried run stopped. `fault` is 0, or that of the next step: 1 an illegal word, 2 a fetch,
/// 3 a load, 4 a store, 5 a jump to no multiple of 4; `number` is then the word or the address.
#[repr(C)]
#[derive(Clone, Copy)]
pub struct Stopped {
    pub fault: u32,
    pub number: u32,
    pub pc: u32,
    pub reserved: u32,
    pub steps: u64,
}

/// How a tried run stopped, with the arguments as they then stood.
#[derive(Drop)]
struct Tried {
    status: Status,
    stopped: Stopped,
    args: Args,
}

fn fault_number(fault: Fault) -> u32
    ensures { result ≡ number_of_fault fault }
{
    match fault {
        Fault::Illegal(_) => 1,
        Fault::FetchFault(_) => 2,
        Fault::LoadFault(_) => 3,
        Fault::StoreFault(_) => 4,
        Fault::JumpMisaligned(_) => 5,
    }
}

fn stop<const VLENB: usize>(status: Status, fault: u32, number: u32, last: Final<VLENB>) -> Tried
    ensures { result ≡ record {
      status = status;
      stopped = stopped_at fault number last.entry;
      args = last.entry.args;
    } }
{
    let Final {
        steps,
        registers,
        args,
        ..
    } = last;
    Tried {
        status,
        stopped: Stopped {
            fault,
            number,
            pc: registers.pc,
            reserved: 0,
            steps,
        },
        args,
    }
}

fn told<const VLENB: usize>(outcome: Outcome<VLENB>) -> Tried
    ensures value { result ≡ tried_of outcome.entry }
    ensures done { is_tried (code_of result.status) ≡ true }
{
    match outcome {
        Outcome::Ended(last) => stop(Status::Done, 0, 0, last),
        Outcome::Trapped(fault, last) => {
            stop(Status::Trapped, fault_number(fault), fault.number(), last)
        }
        Outcome::OutOfSteps(last) => stop(Status::OutOfSteps, 0, 0, last),
    }
}

fn try_at<const VLENB: usize>(
    alloc: Global,
    image: &Image,
    parameters: &Parameters,
    args: Args,
    agnostic: Agnostic,
    max: u64,
) -> Result<Tried, Refusal>
    requires length { IsVlenb VLENB }
    requires matching { AreArguments parameters.now args.places }
    ensures tried { IfOk result (λ tried. tried ≡ tried_from VLENB agnostic max image.now
        parameters.now args.places) }
    ensures done { IfOk result (λ tried. is_tried (code_of tried.status) ≡ true) }
    ensures want { IfErr result (λ refusal. refusal ≡ plain NoMemory) }
    ensures failed { IfErr result (λ refusal. is_tried refusal.status ≡ false) }
{
    match try_run::<VLENB>(alloc, image, parameters, args, agnostic, max) {
        Ok(outcome) => Ok(told(outcome)),
        Err((error, _args)) => Err(Refusal::of(Status::from(error))),
    }
}

/// Runs an image on the places, with every test at each step.
fn try_image(
    alloc: Global,
    image: &Image,
    vlen: Vlen,
    args: Args,
    parameters: &Parameters,
    agnostic: Agnostic,
    max: u64,
) -> Result<Tried, Refusal>
    requires { AreArguments parameters.now args.places }
    ensures tried { IfOk result (λ tried. tried ≡ tried_from (vlenb_of vlen) agnostic max image.now
        parameters.now args.places) }
    ensures done { IfOk result (λ tried. is_tried (code_of tried.status) ≡ true) }
    ensures want { IfErr result (λ refusal. refusal ≡ plain NoMemory) }
    ensures failed { IfErr result (λ refusal. is_tried refusal.status ≡ false) }
{
    match vlen {
        Vlen::V128 => try_at::<16>(alloc, image, parameters, args, agnostic, max),
        Vlen::V256 => try_at::<32>(alloc, image, parameters, args, agnostic, max),
        Vlen::V512 => try_at::<64>(alloc, image, parameters, args, agnostic, max),
    }
}

/// How many bytes there are, or 2^32 - 1 where there are more.
fn size_of(bytes: &[u8]) -> u32
    ensures { result ≡ size_in bytes.now }
{
    bytes.len().min(u32::MAX as usize) as u32
}

/// What an image that is tried may do with an argument: what stands there, and no more.
fn parameter(form: Form, read: &[u8], put: &[u8]) -> Param
    ensures { result ≡ param_in form read.now put.now }
{
    match form.kind {
        0 => Param::None,
        1 => Param::Scalar {
            lo: form.value,
            hi: form.value,
        },
        3 => Param::Buffer {
            mode: Mode::Read,
            size: size_of(read),
        },
        _ => Param::Buffer {
            mode: Mode::ReadWrite,
            size: size_of(put),
        },
    }
}

/// The parameters that eight arguments match, where buffers are within the limits.
fn parameters(forms: &Forms, reads: &Slices, puts: &Slices) -> Option<Parameters>
    ensures given { result ≡ parameters_of (params_in (forms_of forms.now)
        (bytes_of reads.now) (bytes_of puts.now)) }
    ensures value { IfSome result (λ params. params ≡ params_in (forms_of forms.now)
        (bytes_of reads.now) (bytes_of puts.now)) }
    ensures matching { IfSome result (λ params. AreArguments params (all_in (forms_of forms.now)
        (bytes_of reads.now) (bytes_of puts.now))) }
{
    Parameters::new([
        parameter(forms.a0, reads.a0, puts.a0),
        parameter(forms.a1, reads.a1, puts.a1),
        parameter(forms.a2, reads.a2, puts.a2),
        parameter(forms.a3, reads.a3, puts.a3),
        parameter(forms.a4, reads.a4, puts.a4),
        parameter(forms.a5, reads.a5, puts.a5),
        parameter(forms.a6, reads.a6, puts.a6),
        parameter(forms.a7, reads.a7, puts.a7),
    ])
}

/// What a try is set to, where that is a setting and each form is of a kind.
fn set_to(setting: &Setting, forms: &Forms) -> Result<(Vlen, Agnostic), Refusal>
    ensures vlen { IfOk result (λ set. vlen_at setting.now.vlen ≡ Some set.0) }
    ensures agnostic { IfOk result (λ set. agnostic_at setting.now.agnostic ≡ Some set.1) }
    ensures refused { result_err result ≡ asked_to_try setting.now forms.now }
    ensures failed { IfErr result (λ refusal. is_tried refusal.status ≡ false) }
{
    let set = match setting.read() {
        Err(fault) => return Err(Refusal::of(fault)),
        Ok(set) => set,
    };
    match forms.place_of_no_kind() {
        Some(place) => Err(Refusal::at(Status::BadKind, place)),
        None => Ok(set),
    }
}

/// What comes of an image on eight arguments, or why it is not run.
fn tried_on(
    alloc: Global,
    image: &Image,
    vlen: Vlen,
    agnostic: Agnostic,
    max: u64,
    forms: &Forms,
    reads: &Slices,
    puts: &Slices,
) -> Result<Tried, Refusal>
    ensures tried { IfOk result (λ tried. tried ≡ tried_from (vlenb_of vlen) agnostic max image.now
        (params_in (forms_of forms.now)
        (bytes_of reads.now) (bytes_of puts.now))
        (all_in (forms_of forms.now)
        (bytes_of reads.now) (bytes_of puts.now))) }
    ensures done { IfOk result (λ tried. is_tried (code_of tried.status) ≡ true) }
    ensures refused { IsRefused (option_map plain (size_fault forms.now
        (bytes_of reads.now) (bytes_of puts.now))) result }
    ensures failed { IfErr result (λ refusal. is_tried refusal.status ≡ false) }
{
    let Some(parameters) = parameters(forms, reads, puts) else {
        return Err(Refusal::of(Status::TooLarge));
    };
    let args = arguments(alloc, forms, reads, puts)?;
    try_image(alloc, image, vlen, args, &parameters, agnostic, max)
}

/// What comes of a try, or why there is none.
fn performed(
    alloc: Global,
    file: &[u8],
    setting: &Setting,
    forms: &Forms,
    reads: &Slices,
    puts: &Slices,
) -> Result<Tried, Refusal>
    ensures tried { IfOk result (IsTry file.now setting.now forms.now
        (bytes_of reads.now) (bytes_of puts.now)) }
    ensures done { IfOk result (λ tried. is_tried (code_of tried.status) ≡ true) }
    ensures failed { IfErr result (λ refusal. is_tried refusal.status ≡ false) }
    ensures at_once { IfSome (tried_at_once file.now setting.now forms.now)
        (λ refusal. IsErrAnd result (λ told. told ≡ refusal)) }
    ensures refused { IsRefused (try_refusal file.now setting.now forms.now
        (bytes_of reads.now) (bytes_of puts.now)) result }
{
    let (vlen, agnostic) = set_to(setting, forms)?;
    let image = elf_image::read(alloc, file)?;
    tried_on(
        alloc,
        &image,
        vlen,
        agnostic,
        setting.max,
        forms,
        reads,
        puts,
    )
}

/// Runs any image once, accepted or not, with every test at each step, on eight arguments, as
/// [`rvvbox_run_raw`](crate::runs::rvvbox_run_raw) takes them, and puts the buffers back as they stand
/// where it stopped. `stopped` is set where the answer is `Done`, `Trapped` or `OutOfSteps`; after any
/// other answer all bytes are as they were.
#[unsafe(no_mangle)]
pub extern "C" fn rvvbox_try_raw(
    alloc: Global,
    file: &[u8],
    setting: &Setting,
    forms: &Forms,
    r0: &[u8],
    r1: &[u8],
    r2: &[u8],
    r3: &[u8],
    r4: &[u8],
    r5: &[u8],
    r6: &[u8],
    r7: &[u8],
    b0: &mut [u8],
    b1: &mut [u8],
    b2: &mut [u8],
    b3: &mut [u8],
    b4: &mut [u8],
    b5: &mut [u8],
    b6: &mut [u8],
    b7: &mut [u8],
    stopped: &mut Stopped,
    refusal: &mut Refusal,
) -> u32
    ensures status { result ≡ refusal.new.status }
    ensures tried { is_tried result ≡ true → HasTried file.now setting.now forms.now
        (eight r0.now r1.now r2.now r3.now r4.now r5.now r6.now r7.now)
        (eight b0.old b1.old b2.old b3.old b4.old b5.old b6.old b7.old)
        (eight b0.new b1.new b2.new b3.new b4.new b5.new b6.new b7.new)
        result stopped.new }
    ensures at_once { IfSome (tried_at_once file.now setting.now forms.now)
        (λ told. refusal.new ≡ told) }
    ensures answer { IsTryAnswer (try_refusal file.now setting.now forms.now
        (eight r0.now r1.now r2.now r3.now r4.now r5.now r6.now r7.now)
        (eight b0.old b1.old b2.old b3.old b4.old b5.old b6.old b7.old))
        refusal.new }
    ensures stopped { is_tried result ≡ false → stopped.new ≡ stopped.old }
    ensures kept0 { is_tried result ≡ false → b0.new ≡ b0.old }
    ensures kept1 { is_tried result ≡ false → b1.new ≡ b1.old }
    ensures kept2 { is_tried result ≡ false → b2.new ≡ b2.old }
    ensures kept3 { is_tried result ≡ false → b3.new ≡ b3.old }
    ensures kept4 { is_tried result ≡ false → b4.new ≡ b4.old }
    ensures kept5 { is_tried result ≡ false → b5.new ≡ b5.old }
    ensures kept6 { is_tried result ≡ false → b6.new ≡ b6.old }
    ensures kept7 { is_tried result ≡ false → b7.new ≡ b7.old }
{
    let reads = Slices {
        a0: r0,
        a1: r1,
        a2: r2,
        a3: r3,
        a4: r4,
        a5: r5,
        a6: r6,
        a7: r7,
    };
    let puts = Slices {
        a0: &*b0,
        a1: &*b1,
        a2: &*b2,
        a3: &*b3,
        a4: &*b4,
        a5: &*b5,
        a6: &*b6,
        a7: &*b7,
    };
    match performed(alloc, file, setting, forms, &reads, &puts) {
        Ok(tried) => {
            *stopped = tried.stopped;
            *refusal = Refusal::of(tried.status);
            put_all(&tried.args.places, forms, b0, b1, b2, b3, b4, b5, b6, b7);
            tried.status.code()
        }
        Err(told) => {
            *refusal = told;
            told.status
        }
    }
}
