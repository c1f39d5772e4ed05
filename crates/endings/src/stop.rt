//! How the program ends.
ghost use Rattle.std.specs.Prelude.{◌≡◌, ◌++◌, IfSome, [], option_map, string_bytes, unwrap_or};
ghost use Rattle.rv_listing.specs.Sinks.{Told};
ghost use Rattle.endings.specs.Ending.{Tells, code_of, more_if, plain, status_after, status_of};
ghost use Rattle.endings.specs.Ending.{text_after};
ghost use Rattle.endings.specs.Halt.{stop_of};
ghost use Rattle.endings.specs.Streams.{IsTold, stream};
ghost use Rattle.endings.specs.Texts.{stop_text};

use crate::did::Did;
use crate::halt::Halt;
use crate::texts::put_stop;
use block_checker::CheckError;
use cert_maker::MakeError;
use cert_note::CertError;
use elf_image::ElfError;
use job_file::JobError;
use rv_listing::{Failed, Sink, put};
use sandbox_run::OpenError;
use std::alloc::Global;

/// What the program's exit status says.
#[derive(Clone, Copy, PartialEq, Eq)]
pub enum Status {
    /// All was done.
    Done,
    /// The image or its certificate was refused, or the arguments of its run.
    Refused,
    /// The command line or the job was refused.
    Usage,
    /// A file was not read or written, or standard output took no text.
    File,
    /// Memory ran out.
    Memory,
    /// The run met a fault, or did as many steps as it was allowed.
    Stopped,
}

impl Status {
    /// The exit status.
    pub fn code(self) -> u8
        ensures { result ≡ code_of self }
    {
        match self {
            Status::Done => 0,
            Status::Refused => 1,
            Status::Usage => 2,
            Status::File => 3,
            Status::Memory => 4,
            Status::Stopped => 5,
        }
    }
}

/// Why the program ends before all is done. A line on standard error tells it.
#[derive(Clone, Copy)]
pub enum Stop<'a> {
    /// The job file spells no job.
    Job(JobError),
    /// The file at the path was not read or not written.
    File(&'a str),
    /// The image file spells no image.
    Image(ElfError),
    /// The image has no certificate.
    NoCertificate,
    /// The certificate can't be read.
    Certificate(CertError),
    /// The check refuses the image with its certificate.
    Check(CheckError),
    /// No certificate is made of the image.
    Make(MakeError),
    /// The arguments of a run are refused, or its most steps.
    Open(OpenError),
    /// Memory ran out.
    Memory,
    /// Standard output took no text. Nothing more is printed.
    Output,
}

impl Stop<'_> {
    /// The status of the reason.
    fn status(&self) -> Status
        ensures { result ≡ status_of self.now }
    {
        match self {
            Stop::Job(_) => Status::Usage,
            Stop::File(_) | Stop::Output => Status::File,
            Stop::Image(_)
            | Stop::NoCertificate
            | Stop::Certificate(_)
            | Stop::Check(_)
            | Stop::Make(_)
            | Stop::Open(_) => Status::Refused,
            Stop::Memory => Status::Memory,
        }
    }

    /// Tells why, and answers the status. What standard error does not take changes nothing.
    pub fn tell<E: Sink>(&self, errors: &mut E) -> Status
        ensures status { result ≡ status_of self.now }
        ensures told { IsTold (stream (E.contents errors.old) (E.failures errors.old))
            (stream (E.contents errors.new) (E.failures errors.new)) (stop_text self.now) }
    {
        let _told = put_stop(self, errors);
        self.status()
    }
}

/// How a subcommand ends after what it did, or after the reason to stop. That reason is printed. The explanation follows where
/// it is to `explain` and memory suffices.
pub fn ended<E: Sink>(
    alloc: Global,
    done: Result<Did, Halt<'_>>,
    explain: bool,
    errors: &mut E,
) -> Status
    ensures status { result ≡ status_after (plain done.entry) }
    ensures told { Tells explain done.entry
        (stream (E.contents errors.old) (E.failures errors.old))
        (stream (E.contents errors.new) (E.failures errors.new)) }
{
    let more = more_of(alloc, &done, explain);
    let _told = tell_all(&done, bytes_in(&more), errors);
    status_after(&done)
}

/// The status of what was done, or of the reason to stop.
fn status_after(done: &Result<Did, Halt<'_>>) -> Status
    ensures { result ≡ status_after (plain done.now) }
{
    match done {
        Ok(did) => did.status(),
        Err(halt) => halt.stop().status(),
    }
}

/// The explanation, where it is to explain and memory suffices.
fn more_of(alloc: Global, done: &Result<Did, Halt<'_>>, explain: bool) -> Option<String>
    ensures { IfSome result (λ text. string_bytes text ≡ more_if explain done.now) }
{
    if !explain {
        return None;
    }
    let text = match done {
        Ok(did) => format!(in alloc; "{did}"),
        Err(halt) => format!(in alloc; "{halt}"),
    };
    text.ok()
}

/// The bytes of a text, or none.
fn bytes_in(text: &Option<String>) -> &[u8]
    ensures { result.now ≡ unwrap_or (option_map (λ text. string_bytes text) text.now) [] }
{
    match text {
        Some(text) => text.as_bytes(),
        None => b"".as_slice(),
    }
}

/// Tells why a subcommand stops, and then more.
fn tell_halt<E: Sink>(halt: &Halt<'_>, more: &[u8], errors: &mut E) -> Result<(), Failed>
    ensures { Told result (E.contents errors.old) (E.contents errors.new)
        (E.failures errors.old) (E.failures errors.new)
        (stop_text (stop_of halt.now) ++ more.now) }
{
    let stop = halt.stop();
    put_stop(&stop, errors)?;
    put(errors, more)
}

/// Tells why a subcommand stops, if it does, and then more.
fn tell_all<E: Sink>(
    done: &Result<Did, Halt<'_>>,
    more: &[u8],
    errors: &mut E,
) -> Result<(), Failed>
    ensures { Told result (E.contents errors.old) (E.contents errors.new)
        (E.failures errors.old) (E.failures errors.new)
        (text_after (plain done.now) ++ more.now) }
{
    match done {
        Ok(_) => put(errors, more),
        Err(halt) => tell_halt(halt, more, errors),
    }
}
