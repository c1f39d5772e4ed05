//! The program, over any files, input and streams.
ghost use Rattle.std.specs.IoError.{error_kind};
ghost use Rattle.std.specs.Process.{exit_status};
ghost use Rattle.std.specs.Prelude.{◌≡◌, map};
ghost use Rattle.clap.specs.Words.{fault_of};
ghost use Rattle.rv_listing.specs.Sinks.{IsCounted, IsPassedOn};
ghost use Rattle.command_line.specs.Line.{app};
ghost use Rattle.command_line.specs.Program.{Does, IsAsAsked, IsHeard, IsRefusalTold, IsSilent};
ghost use Rattle.command_line.specs.Program.{IsStatusFor, IsUntouched, Stops, explains};
ghost use Rattle.command_line.specs.Program.{status_without_words, text_without_words};
ghost use Rattle.endings.specs.Ending.{Ends, PassesOn, code_of};
ghost use Rattle.file_store.specs.Store.{files_of};
ghost use Rattle.endings.specs.Streams.{IsTold, stream};
ghost use Rattle.commands.specs.Changes.{exchange};
ghost use Rattle.file_store.specs.Sources.{source};

use crate::line::asked::Line;
use crate::line::line;
use commands::{
    Sink, Source, Status, Stop, Store, Stream, check_image, make_image, mon_job, run_job, try_job,
};
use rv_listing::put;
use std::alloc::Global;
use std::io;
use std::io::{Eprint, ErrorKind};
use std::process::{ExitCode, Termination};

/// How the program ends, as `main` returns it. It comes of what was performed, or of words that the system did not give.
#[derive(Clone, Copy)]
pub struct Ended {
    status: Status,
}

impl Ended {
    /// The status.
    pub fn status(self) -> Status
        ensures { result ≡ self.status }
    {
        self.status
    }
}

impl Termination for Ended {
    /// The process ends with the code of the status.
    fn report<R: Eprint>(self, _rt: &R) -> ExitCode
        ensures { exit_status result ≡ code_of self.status }
    {
        ExitCode::from(self.status.code())
    }
}

/// Does what the words ask for. The first is the program's name. It reads and writes the files in
/// `store`, prints what came of it to `output`, and why it was refused or failed to `errors`.
/// `mon` alone reads from the input. It answers how the program ends.
///
/// Where `clap` refuses the words, the status is `Usage`, and for help or the version `Done` (or `File`, where standard
/// output takes no text), unless memory runs out.
pub fn perform<'a, S: Store, I: Source, O: Stream, E: Sink>(
    alloc: Global,
    words: &'a [&'a str],
    store: &mut S,
    input: &mut I,
    output: &mut O,
    errors: &mut E,
) -> Ended
    ensures status { IsStatusFor (fault_of app (map (λ w. w.now) words.entry.now))
        (IsCounted (O.failures output.old) (O.failures output.new)) result.status }
    ensures untouched { IsUntouched (fault_of app (map (λ w. w.now) words.entry.now))
        (S.held store.old) (S.held store.new) (S.input store.old) (S.input store.new)
        (exchange
        (source (I.remaining input.old) (I.reads input.old) (I.failures input.old))
        (source (I.remaining input.new) (I.reads input.new) (I.failures input.new))
        (stream (O.contents output.old) (O.failures output.old))
        (stream (O.contents output.new) (O.failures output.new))) }
    ensures silent { IsSilent (fault_of app (map (λ w. w.now) words.entry.now))
        (exchange
        (source (I.remaining input.old) (I.reads input.old) (I.failures input.old))
        (source (I.remaining input.new) (I.reads input.new) (I.failures input.new))
        (stream (O.contents output.old) (O.failures output.old))
        (stream (O.contents output.new) (O.failures output.new))) result.status }
    ensures refusal { IsRefusalTold (fault_of app (map (λ w. w.now) words.entry.now))
        (stream (E.contents errors.old) (E.failures errors.old))
        (stream (E.contents errors.new) (E.failures errors.new)) result.status }
    ensures asked { IsAsAsked (files_of (S.held store.old)) (map (λ w. w.now) words.entry.now)
        (exchange
        (source (I.remaining input.old) (I.reads input.old) (I.failures input.old))
        (source (I.remaining input.new) (I.reads input.new) (I.failures input.new))
        (stream (O.contents output.old) (O.failures output.old))
        (stream (O.contents output.new) (O.failures output.new)))
        (S.held store.old) (S.held store.new)
        (stream (E.contents errors.old) (E.failures errors.old))
        (stream (E.contents errors.new) (E.failures errors.new)) result.status }
    ensures passed { IsPassedOn (O.passed output.old) (O.contents output.old)
        → PassesOn result.status (O.passed output.new) (O.contents output.new) }
{
    match line(alloc, words) {
        Ok(asked) => Ended {
            status: carry_out(alloc, asked, store, input, output, errors),
        },
        Err(error) => Ended {
            status: error.tell(alloc, output, errors),
        },
    }
}

/// Does what a line asks for.
fn carry_out<'a, S: Store, I: Source, O: Stream, E: Sink>(
    alloc: Global,
    asked: Line<'a>,
    store: &mut S,
    input: &mut I,
    output: &mut O,
    errors: &mut E,
) -> Status
    ensures heard { IsHeard asked.entry (exchange
        (source (I.remaining input.old) (I.reads input.old) (I.failures input.old))
        (source (I.remaining input.new) (I.reads input.new) (I.failures input.new))
        (stream (O.contents output.old) (O.failures output.old))
        (stream (O.contents output.new) (O.failures output.new))) }
    ensures ends { let e = (exchange
        (source (I.remaining input.old) (I.reads input.old) (I.failures input.old))
        (source (I.remaining input.new) (I.reads input.new) (I.failures input.new))
        (stream (O.contents output.old) (O.failures output.old))
        (stream (O.contents output.new) (O.failures output.new))) in
        Ends (explains asked.entry)
        (Does (files_of (S.held store.old)) asked.entry e (S.held store.old) (S.held store.new))
        (Stops (files_of (S.held store.old)) asked.entry e (S.held store.old) (S.held store.new))
        (stream (E.contents errors.old) (E.failures errors.old))
        (stream (E.contents errors.new) (E.failures errors.new)) result }
    ensures passed { IsPassedOn (O.passed output.old) (O.contents output.old)
        → PassesOn result (O.passed output.new) (O.contents output.new) }
{
    match asked {
        Line::Check { image, explain } => check_image(alloc, image, explain, store, output, errors),
        Line::Run {
            job,
            explain,
            registers,
        } => run_job(alloc, job, explain, registers, store, output, errors),
        Line::Try {
            job,
            explain,
            registers,
        } => try_job(alloc, job, explain, registers, store, output, errors),
        Line::Mon { job, explain } => mon_job(alloc, job, explain, store, input, output, errors),
        Line::Make { paths, explain } => make_image(alloc, paths, explain, store, output, errors),
    }
}

/// Ends the program where the system's words were not taken, and tells why: memory ran out, or they are not UTF-8.
pub fn end_without_words<E: Sink>(error: io::Error, errors: &mut E) -> Ended
    ensures status { result.status ≡ status_without_words (error_kind error) }
    ensures told { IsTold (stream (E.contents errors.old) (E.failures errors.old))
        (stream (E.contents errors.new) (E.failures errors.new))
        (text_without_words result.status) }
{
    match error.kind() {
        ErrorKind::OutOfMemory => Ended {
            status: Stop::Memory.tell(errors),
        },
        _ => {
            let _told = put(errors, "error: the words are not UTF-8\n".as_bytes());
            Ended {
                status: Status::Usage,
            }
        }
    }
}
