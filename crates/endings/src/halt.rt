//! Why a subcommand stops, and the explanation of that: the error in a sentence, and the lines of its reason.
ghost use Rattle.std.specs.Prelude.{◌≡◌};
ghost use Rattle.endings.specs.Halt.{IfExplained, error_of, stop_of, stop_of_why};
ghost use Rattle.endings.specs.declared.halt.Halt.TheVariants.{Plain};
ghost use Rattle.endings.specs.declared.stop.Stop.TheVariants.{Memory};

use crate::stop::Stop;
use block_checker::CheckError;
use cert_maker::MakeError;
use cert_note::CertError;
use check_reasons::CheckReason;
use elf_image::ElfError;
use explanations::{CertificateReason, ImageReason, Refusal};
use job_file::JobError;
use job_reasons::{JobReason, LoopReason, MakeReason, OpenReason};
use sandbox_run::OpenError;
use std::alloc::{AllocError, Global};
use std::fmt;

/// Why a subcommand stops, with what explains it. A large explanation is kept where memory sufficed, and a small one
/// always. It shows the explanation.
#[derive(Drop)]
pub enum Halt<'a> {
    /// No more is kept than the reason to stop.
    Plain(Stop<'a>),
    /// The parameters of a job are refused for this reason.
    Parameters(MakeReason),
    /// No run is opened.
    Unopened(Refusal<OpenError, OpenReason>),
    /// What explains the reason to stop. It stands on the heap, so that an answer with it is small.
    Explained(Box<Why<'a>>),
}

/// What explains a reason to stop and is large. It shows the error's text on a line of its own, where there is an error,
/// and then the reason's lines.
#[derive(Drop)]
pub enum Why<'a> {
    /// A job is refused for this reason.
    Job(JobReason),
    /// The file at the path was not read or not written, and the line has what the system says of it.
    File(&'a str, String),
    /// A file is no image.
    Image(Refusal<ElfError, ImageReason>),
    /// No certificate is attached to an image.
    Attach(Refusal<ElfError, MakeReason>),
    /// Bytes are no certificate.
    Certificate(Refusal<CertError, CertificateReason>),
    /// The check refuses an image with its certificate.
    Check(Refusal<CheckError, CheckReason>),
    /// No certificate is made of an image.
    Make(Refusal<MakeError, LoopReason>),
}

/// The error of a job that is refused for a reason.
fn error_of(reason: &JobReason) -> JobError
    ensures { result ≡ error_of reason.now }
{
    match reason {
        JobReason::NotUtf8(_) | JobReason::NotToml { .. } => JobError::NotToml,
        JobReason::Broken | JobReason::Missing { .. } | JobReason::Breach(_) => JobError::BadKey,
    }
}

impl<'a> Why<'a> {
    /// The reason to stop that it explains.
    fn stop(&self) -> Stop<'a>
        ensures { result ≡ stop_of_why self.now }
    {
        match self {
            Why::Job(reason) => Stop::Job(error_of(reason)),
            Why::File(path, _) => Stop::File(*path),
            Why::Image(told) => Stop::Image(told.error),
            Why::Attach(told) => Stop::Image(told.error),
            Why::Certificate(told) => Stop::Certificate(told.error),
            Why::Check(told) => Stop::Check(told.error),
            Why::Make(told) => Stop::Make(told.error),
        }
    }
}

impl<'a> Halt<'a> {
    /// The reason to stop that this explains, with it where memory suffices to keep it.
    pub fn explained(alloc: Global, why: Why<'a>) -> Halt<'a>
        ensures stop { stop_of result ≡ stop_of_why why.entry }
        ensures kept { IfExplained result (λ kept. kept ≡ why.entry) }
    {
        let stop = why.stop();
        match Box::new(alloc, why) {
            Ok(kept) => Halt::Explained(kept),
            Err(_) => Halt::Plain(stop),
        }
    }

    /// The reason to stop alone.
    pub fn stop(&self) -> Stop<'a>
        ensures { result ≡ stop_of self.now }
    {
        match self {
            Halt::Plain(stop) => *stop,
            Halt::Parameters(_) => Stop::Job(JobError::BadKey),
            Halt::Unopened(told) => Stop::Open(told.error),
            Halt::Explained(why) => why.stop(),
        }
    }
}

impl From<AllocError> for Halt<'_> {
    ghost from_gives = { λ _ halt. halt ≡ Plain Memory };

    fn from(_error: AllocError) -> Self {
        Halt::Plain(Stop::Memory)
    }
}

impl fmt::Display for Why<'_> {
    ghost use Rattle.std.specs.Prelude.{Some};
    ghost use Rattle.endings.specs.Halt.{why_text};

    ghost output = { λ why. Some (why_text why) };

    fn fmt<W: fmt::Write>(&self, f: &mut fmt::Formatter<W>) -> fmt::Result {
        match self {
            Why::Job(reason) => write!(f, "{reason}"),
            Why::File(_, line) => write!(f, "{line}"),
            Why::Image(told) => write!(f, "{told}"),
            Why::Attach(told) => write!(f, "{told}"),
            Why::Certificate(told) => write!(f, "{told}"),
            Why::Check(told) => write!(f, "{told}"),
            Why::Make(told) => write!(f, "{told}"),
        }
    }
}

impl fmt::Display for Halt<'_> {
    ghost use Rattle.std.specs.Prelude.{Some};
    ghost use Rattle.endings.specs.Halt.{halt_text};

    ghost output = { λ halt. Some (halt_text halt) };

    fn fmt<W: fmt::Write>(&self, f: &mut fmt::Formatter<W>) -> fmt::Result {
        match self {
            Halt::Plain(Stop::NoCertificate) => {
                writeln!(
                    f,
                    "  wanted: a certificate in a note of the image, as `make` writes it"
                )
            }
            Halt::Plain(
                Stop::Job(_)
                | Stop::File(_)
                | Stop::Image(_)
                | Stop::Certificate(_)
                | Stop::Check(_)
                | Stop::Make(_)
                | Stop::Open(_)
                | Stop::Memory
                | Stop::Output,
            ) => Ok(()),
            Halt::Parameters(reason) => write!(f, "{reason}"),
            Halt::Unopened(told) => write!(f, "{told}"),
            Halt::Explained(why) => write!(f, "{why}"),
        }
    }
}
