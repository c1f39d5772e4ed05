//! `make`: an image with the certificate that is made of its loop.
ghost use Rattle.std.specs.Prelude.{◌≡◌, Err, IfErr, IfOk, MatchResult, OnOk, length};
ghost use Rattle.block_checker.specs.Accepted.{Passes};
ghost use Rattle.cert_note.specs.Spelling.{spelling};
ghost use Rattle.endings.specs.Accepted.{IsOrWant};
ghost use Rattle.endings.specs.Ending.{Ends, PassesOn};
ghost use Rattle.commands.specs.Files.{OfTable, StopsOfTable, image_in};
ghost use Rattle.file_store.specs.Store.{files_of};
ghost use Rattle.endings.specs.Halt.{bare};
ghost use Rattle.commands.specs.Makes.{AnswersBytes, ExplainsMaking, ExplainsReadBack, Makes};
ghost use Rattle.commands.specs.Makes.{StopsMake, accepted_in, bytes_of, certificate_for};
ghost use Rattle.commands.specs.Makes.{made_for, with_certificate};
ghost use Rattle.commands.specs.Trial.{OrMemory};
ghost use Rattle.endings.specs.Streams.{stream};
ghost use Rattle.commands.specs.Changes.{Wrote, change};
ghost use Rattle.endings.specs.Why.{ExplainsAttached, ExplainsLoop};
ghost use Rattle.rv_listing.specs.Sinks.{IsPassedOn};
ghost use Rattle.toml.specs.View.{table_view};

use crate::checks::print_bound;
use crate::files::{image_in, read_image_file, write};
use crate::starts::{on_table, taken};
use block_checker::Accepted;
use cert_maker::make_kept;
use cert_note::Certificate;
use elf_image::{Image, attach};
use endings::{Did, Halt, Status, accept, not_attached, not_made};
use file_store::Store;
use job_file::{MakeJob, make_job_in};
use job_reasons::{Command, parameter_reason};
use region_mem::Parameters;
use rv_listing::{Sink, Stream};
use std::alloc::Global;
use toml::Table;

/// The paths that `make` is given.
#[derive(Clone, Copy)]
pub struct MakePaths<'a> {
    /// The image file that is read.
    pub image: &'a str,
    /// The job file.
    pub job: &'a str,
    /// The image file that is written.
    pub out: &'a str,
}

/// `make`: makes the certificate of the loop in an image, for the parameters and the length of
/// vector registers of a job, writes the image with it, and prints the bound that it states. An
/// image that the job names is not read.
///
/// In this order, up to the first that is refused or fails, which is reported: the job file, the
/// job, the image file, the image, the parameters, the certificate, the file with it, that file
/// read back, its certificate, the check, the file that is written, the printed line.
///
/// Where it is to `explain`, the explanation is printed behind the reason's line.
pub fn make_image<'a, S: Store, O: Stream, E: Sink>(
    alloc: Global,
    paths: MakePaths<'a>,
    explain: bool,
    store: &mut S,
    output: &mut O,
    errors: &mut E,
) -> Status
    ensures ends { let c = (change (S.held store.old) (S.held store.new)
        (stream (O.contents output.old) (O.failures output.old))
        (stream (O.contents output.new) (O.failures output.new))) in
        Ends explain
        (OfTable (files_of c.was) paths.entry.job.now (λ table.
        Makes (files_of c.was) paths.entry.image.now paths.entry.out.now table c))
        (StopsOfTable (files_of c.was) (Wrote c) paths.entry.job.now
        (StopsMake (files_of c.was) c paths.entry.image.now paths.entry.out.now))
        (stream (E.contents errors.old) (E.failures errors.old))
        (stream (E.contents errors.new) (E.failures errors.new)) result }
    ensures passed { PassesOn result (O.passed output.new) (O.contents output.new) }
{
    on_table!(alloc, paths.job, explain, store, errors; table =>
        make_table(alloc, table, paths, store, output))
}

/// `make` on a job's table.
fn make_table<'a, S: Store, O: Stream>(
    alloc: Global,
    table: &Table,
    paths: MakePaths<'a>,
    store: &mut S,
    output: &mut O,
) -> Result<Did, Halt<'a>>
    ensures done { let c = (change (S.held store.old) (S.held store.new)
        (stream (O.contents output.old) (O.failures output.old))
        (stream (O.contents output.new) (O.failures output.new))) in
        MatchResult result
        (Makes (files_of c.was) paths.entry.image.now paths.entry.out.now (table_view table.now) c)
        (StopsMake (files_of c.was) c paths.entry.image.now paths.entry.out.now
        (table_view table.now)) }
    ensures passed { OnOk result (IsPassedOn (O.passed output.new) (O.contents output.new)) }
{
    let job = taken(alloc, make_job_in(table), table, Command::Make)?;
    let file = read_image_file(alloc, paths.image, store)?;
    let image = image_in(alloc, file.as_slice())?;
    let bytes = made(alloc, &job, file.as_slice(), &image)?;
    let budget = read_back(alloc, &job, bytes.as_slice())?.budget();
    write(alloc, paths.out, bytes.as_slice(), store)?;
    print_bound(&budget, output)
}

/// The certificate that is made for a job of the loop at an image's entry.
fn certificate_for<'a>(alloc: Global, job: &MakeJob, image: &Image) -> Result<Certificate, Halt<'a>>
    ensures answer { OrMemory (certificate_for job.now image.now) (bare result) }
    ensures told { IfErr result (ExplainsLoop job.now.params image.now) }
{
    let Some(parameters) = Parameters::new(job.params) else {
        return Err(Halt::Parameters(parameter_reason(&job.params)));
    };
    match make_kept(alloc, image, &parameters, job.vlen) {
        Ok(certificate) => Ok(certificate),
        Err(refusal) => Err(not_made(alloc, &job.params, refusal)),
    }
}

/// The file of an image with a certificate in a note.
fn with_certificate<'a>(
    alloc: Global,
    file: &[u8],
    image: &Image,
    certificate: &Certificate,
) -> Result<Vec<u8>, Halt<'a>>
    ensures answer { AnswersBytes (with_certificate file.now certificate.now) result }
    ensures told { IfErr result (ExplainsAttached file.now image.now.certificate
        (length (spelling certificate.now))) }
{
    let note = cert_note::write(alloc, certificate)?;
    match attach(alloc, file, note.as_slice()) {
        Ok(bytes) => Ok(bytes),
        Err(error) => Err(not_attached(alloc, file, image, note.len(), error)),
    }
}

/// A file with the certificate that is made of its image for a job. Want of memory comes only where
/// there is such a certificate.
fn made<'a>(alloc: Global, job: &MakeJob, file: &[u8], image: &Image) -> Result<Vec<u8>, Halt<'a>>
    ensures certificate { IfErr (certificate_for job.now image.now)
        (λ reason. bytes_of result ≡ Err reason) }
    ensures answer { AnswersBytes (made_for job.now file.now image.now) result }
    ensures told { IfErr result (ExplainsMaking job.now file.now image.now) }
{
    let certificate = certificate_for(alloc, job, image)?;
    with_certificate(alloc, file, image, &certificate)
}

/// What is accepted where a file that was made is read back.
fn read_back<'a>(alloc: Global, job: &MakeJob, bytes: &[u8]) -> Result<Accepted, Halt<'a>>
    ensures image { IfErr (image_in bytes.now) (λ reason. bare result ≡ Err reason) }
    ensures answer { IsOrWant (accepted_in job.now bytes.now) (bare result) }
    ensures told { IfErr result (ExplainsReadBack job.now bytes.now) }
    ensures passes { IfOk result Passes }
{
    let image = image_in(alloc, bytes)?;
    accept(alloc, image, Some(job.vlen))
}
