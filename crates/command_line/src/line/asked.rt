//! What a command line asks for.
ghost use Rattle.std.specs.Prelude.{◌≡◌, ◌⊎◌, true, false};
ghost use Rattle.rv_listing.specs.Sinks.{IsCounted};
ghost use Rattle.endings.specs.Ending.{PassesOn};
ghost use Rattle.endings.specs.Streams.{IsTold, stream};
ghost use Rattle.endings.specs.Texts.{stop_text};
ghost use Rattle.endings.specs.declared.stop.Stop.TheVariants as stop;
ghost use Rattle.command_line.specs.Asked.{is_request, status_of_line};
ghost use Rattle.command_line.specs.declared.line.asked.LineError.TheVariants.{NoMemory};

use commands::{MakePaths, Sink, Status, Stop, Stream};
use rv_listing::{print, put};
use std::alloc::{AllocError, Global};

/// What a command line asks for: a subcommand with its paths, whether it is to explain why it stops, and, of a run, whether the
/// registers that it left are printed.
#[derive(Drop)]
pub enum Line<'a> {
    /// Checks the image at `image` against its certificate.
    Check {
        image: &'a str,
        explain: bool,
    },
    /// Checks the image of the job at `job`, and runs it if it is accepted.
    Run {
        job: &'a str,
        explain: bool,
        registers: bool,
    },
    /// Runs the image of the job at `job`, accepted or not, with every test at each step.
    Try {
        job: &'a str,
        explain: bool,
        registers: bool,
    },
    /// Checks the image of the job at `job`, and answers commands on its run if it is accepted.
    Mon {
        job: &'a str,
        explain: bool,
    },
    /// Makes the certificate of an image for a job, and writes the image with it.
    Make {
        paths: MakePaths<'a>,
        explain: bool,
    },
}

/// Why a command line asks for nothing that can be done.
#[derive(Drop)]
pub enum LineError {
    /// `clap` refused the words, or they ask for help or the version. The text is `clap`'s.
    Usage(clap::Error),
    /// Memory ran out.
    NoMemory,
}

impl From<AllocError> for LineError {
    ghost from_gives = { λ _ e. e ≡ NoMemory };

    fn from(_error: AllocError) -> LineError {
        LineError::NoMemory
    }
}

impl LineError {
    /// Answers a request for help or the version on standard output, and else tells on standard error what is wrong. It answers
    /// the status.
    pub fn tell<O: Stream, E: Sink>(&self, alloc: Global, output: &mut O, errors: &mut E) -> Status
        ensures told { is_request self.now ≡ false
            → (result ≡ status_of_line self.now) ⊎ (result ≡ Status.Memory) }
        ensures answered { is_request self.now ≡ true → (result ≡ Status.Done)
            ⊎ (((result ≡ Status.File) × IsCounted (O.failures output.old) (O.failures output.new))
            ⊎ (result ≡ Status.Memory)) }
        ensures quiet { is_request self.now ≡ false →
            stream (O.contents output.new) (O.failures output.new)
            ≡ stream (O.contents output.old) (O.failures output.old) }
        ensures kept { result ≡ Status.Memory →
            stream (O.contents output.new) (O.failures output.new)
            ≡ stream (O.contents output.old) (O.failures output.old) }
        ensures memory { result ≡ Status.Memory →
            IsTold (stream (E.contents errors.old) (E.failures errors.old))
            (stream (E.contents errors.new) (E.failures errors.new)) (stop_text stop.Memory) }
        ensures done { result ≡ Status.Done →
            stream (E.contents errors.new) (E.failures errors.new)
            ≡ stream (E.contents errors.old) (E.failures errors.old) }
        ensures passed { PassesOn result (O.passed output.new) (O.contents output.new) }
    {
        let LineError::Usage(error) = self else {
            return Stop::Memory.tell(errors);
        };
        match format!(in alloc; "{error}") {
            Ok(text) if error.use_stderr() => {
                let _told = put(errors, text.as_bytes());
                Status::Usage
            }
            Ok(text) => match print(output, text.as_bytes()) {
                Ok(()) => Status::Done,
                Err(_) => Status::File,
            },
            Err(_) => Stop::Memory.tell(errors),
        }
    }
}
