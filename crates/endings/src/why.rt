//! Why a subcommand stops, from what it stops at. Where memory ran out, a large explanation is left out.
ghost use Rattle.std.specs.Prelude.{◌≡◌, IfSome, None, Some};
ghost use Rattle.block_checker.specs.Bound.{scalar_of, scalars_of};
ghost use Rattle.block_checker.specs.Explained.{IsStopped};
ghost use Rattle.endings.specs.Ending.{stop_at_file, stop_of_certificate, stop_of_check};
ghost use Rattle.endings.specs.Ending.{stop_of_image, stop_of_make, stop_of_open, stop_of_text};
ghost use Rattle.cert_note.specs.Reading.{IsRefusal};
ghost use Rattle.endings.specs.Halt.{stop_of};
ghost use Rattle.cert_maker.specs.Refusal.{error_of as error_of_make};
ghost use Rattle.endings.specs.Why.{ExplainsAttached, ExplainsCertificate, ExplainsCheck};
ghost use Rattle.endings.specs.Why.{ExplainsOpened, ExplainsRun, ExplainsTable};
ghost use Rattle.endings.specs.Why.{TellsImage, TellsLoop, TellsText};
ghost use Rattle.job_file.specs.declared.values.JobError.TheVariants.{BadKey};
ghost use Rattle.toml.specs.View.{table_view};
ghost use Rattle.endings.specs.declared.stop.Stop.TheVariants.{Job};

use crate::halt::{Halt, Why};
use crate::stop::Stop;
use block_checker::{Accepted, CheckError, Refused};
use cert_maker::MakeRefusal;
use cert_note::{CertError, CertRefusal};
use check_reasons::reason_of;
use elf_image::{ElfError, ElfRefusal, Image};
use explanations::{ImageReason, Refusal, refusal_reason};
use file_store::StoreError;
use job_file::JobError;
use job_reasons::{Command, JobReason, attach_reason, loop_reason, open_reason, table_reason};
use region_mem::{Arg, Args, Param, Parameters};
use sandbox_run::OpenError;
use std::alloc::Global;
use std::io::ErrorKind;
use toml::Table;
use vreg_groups::Vlen;

/// The line of what the system says, if it says anything, where memory suffices. An error without a
/// category says nothing.
fn said(alloc: Global, says: Option<ErrorKind>) -> Option<String>
    ensures { says ≡ Some ErrorKind.Uncategorized → result ≡ None }
{
    let kind = says?;
    if kind == ErrorKind::Uncategorized {
        return None;
    }
    let line = format!(in alloc; "  the system says: {kind}\n");
    line.ok()
}

/// The file at `path` was not read or written. The system says this of it.
pub fn stop_at<'a>(
    alloc: Global,
    error: StoreError,
    says: Option<ErrorKind>,
    path: &'a str,
) -> Halt<'a>
    ensures { stop_of result ≡ stop_at_file error path.entry }
{
    match error {
        StoreError::Failed => match said(alloc, says) {
            Some(line) => Halt::explained(alloc, Why::File(path, line)),
            None => Halt::Plain(Stop::File(path)),
        },
        StoreError::NoMemory => Halt::Plain(Stop::Memory),
    }
}

/// A file is no image.
pub fn bad_image<'a>(alloc: Global, refusal: ElfRefusal) -> Halt<'a>
    ensures stop { stop_of result ≡ stop_of_image refusal.error }
    ensures told { TellsImage refusal result }
{
    let ElfRefusal { error, evidence } = refusal;
    if let ElfError::NoMemory = error {
        Halt::Plain(Stop::Memory)
    } else {
        let reason = ImageReason(evidence);
        Halt::explained(alloc, Why::Image(Refusal { error, reason }))
    }
}

/// No certificate of `size` bytes is attached to an image.
pub fn not_attached<'a>(
    alloc: Global,
    file: &[u8],
    image: &Image,
    size: usize,
    error: ElfError,
) -> Halt<'a>
    ensures stop { stop_of result ≡ stop_of_image error }
    ensures told { ExplainsAttached file.now image.now.certificate size result }
{
    if let ElfError::NoMemory = error {
        Halt::Plain(Stop::Memory)
    } else {
        let reason = attach_reason(file, image, size, error);
        Halt::explained(alloc, Why::Attach(Refusal { error, reason }))
    }
}

/// Bytes are no certificate.
pub fn bad_certificate<'a>(alloc: Global, bytes: &[u8], refusal: CertRefusal) -> Halt<'a>
    requires { IsRefusal bytes.now refusal }
    ensures stop { stop_of result ≡ stop_of_certificate refusal.error }
    ensures told { ExplainsCertificate (Some bytes.now) result }
{
    let error = refusal.error;
    if let CertError::NoMemory = error {
        Halt::Plain(Stop::Memory)
    } else {
        let reason = refusal_reason(bytes, refusal);
        Halt::explained(alloc, Why::Certificate(Refusal { error, reason }))
    }
}

/// The check refuses an image with a certificate, and stopped at a place.
pub fn not_accepted<'a>(alloc: Global, refused: &Refused, vlen: Vlen) -> Halt<'a>
    requires { IsStopped refused.now.image refused.now.certificate refused.now.error
        refused.now.stop }
    ensures stop { stop_of result ≡ stop_of_check refused.now.error }
    ensures told { ExplainsCheck refused.now.image refused.now.certificate vlen result }
{
    let error = refused.error;
    if let CheckError::NoMemory = error {
        return Halt::Plain(Stop::Memory);
    }
    match reason_of(alloc, refused, vlen) {
        Ok(reason) => Halt::explained(alloc, Why::Check(Refusal { error, reason })),
        Err(_) => Halt::Plain(Stop::Check(error)),
    }
}

/// The bytes of a job file spell no table, for this reason. There is none where memory ran out.
pub fn bad_text<'a>(alloc: Global, reason: Option<JobReason>) -> Halt<'a>
    ensures stop { stop_of result ≡ stop_of_text reason }
    ensures told { TellsText reason result }
{
    match reason {
        Some(reason) => Halt::explained(alloc, Why::Job(reason)),
        None => Halt::Plain(Stop::Memory),
    }
}

/// A command takes no job of a table.
pub fn not_taken<'a>(alloc: Global, table: &Table, command: Command) -> Halt<'a>
    ensures stop { stop_of result ≡ Job BadKey }
    ensures told { ExplainsTable command (table_view table.now) result }
{
    match table_reason(alloc, command, table) {
        Ok(Some(reason)) => Halt::explained(alloc, Why::Job(reason)),
        Ok(None) | Err(_) => Halt::Plain(Stop::Job(JobError::BadKey)),
    }
}

/// No certificate is made of an image for these parameters.
pub fn not_made<'a>(alloc: Global, params: &[Param; 8], refusal: MakeRefusal) -> Halt<'a>
    ensures stop { stop_of result ≡ stop_of_make (error_of_make refusal) }
    ensures told { TellsLoop params.now refusal result }
{
    match refusal {
        MakeRefusal::NoMemory => Halt::Plain(Stop::Memory),
        MakeRefusal::Misfit(misfit) => {
            let error = refusal.error();
            match loop_reason(alloc, misfit, params) {
                Ok(reason) => Halt::explained(alloc, Why::Make(Refusal { error, reason })),
                Err(_) => Halt::Plain(Stop::Make(error)),
            }
        }
    }
}

/// The number of a scalar argument, and 0 of any other.
fn scalar_of(arg: &Arg) -> u32
    ensures { result ≡ scalar_of arg.now }
{
    match arg {
        Arg::None | Arg::Buffer(_) => 0,
        Arg::Scalar(number) => *number,
    }
}

/// The numbers of scalar arguments, by place.
fn scalars(places: &[Arg; 8]) -> [u32; 8]
    ensures { result ≡ scalars_of places.now }
{
    let mut made = [0; 8];
    for place in 0..8 {
        made[place] = scalar_of(&places[place]);
    }
    made
}

/// A run is not opened: of the arguments or of the bound.
pub fn not_started<'a>(
    parameters: &Parameters,
    args: &Args,
    bound: u128,
    max: u64,
    error: OpenError,
) -> Halt<'a>
    ensures stop { stop_of result ≡ stop_of_open error }
    ensures told { ExplainsOpened parameters.now args.now.places bound max result }
{
    if let OpenError::NoMemory = error {
        Halt::Plain(Stop::Memory)
    } else {
        let reason = open_reason(parameters, args, bound, max, error);
        Halt::Unopened(Refusal { error, reason })
    }
}

/// No run of an accepted image is opened.
pub fn not_opened<'a>(accepted: &Accepted, args: &Args, max: u64, error: OpenError) -> Halt<'a>
    ensures stop { stop_of result ≡ stop_of_open error }
    ensures told { ExplainsRun max accepted.now args.now.places result }
{
    let bound = accepted.bound(&scalars(&args.places));
    not_started(accepted.parameters(), args, bound, max, error)
}
