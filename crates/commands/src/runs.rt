//! `run`: a job on an image that is accepted.
ghost use Rattle.std.specs.Prelude.{◌≡◌, IfErr, IfOk, MatchResult, OnOk};
ghost use Rattle.job_file.specs.Needs.{run_job_lent};
ghost use Rattle.rv_listing.specs.Sinks.{IsPassedOn};
ghost use Rattle.toml.specs.View.{table_view};
ghost use Rattle.vreg_groups.specs.VectorLength.{IsVlenb};
ghost use Rattle.endings.specs.Ending.{Ends, PassesOn};
ghost use Rattle.commands.specs.Files.{OfTable, StopsOfTable};
ghost use Rattle.file_store.specs.Store.{files_of};
ghost use Rattle.endings.specs.Halt.{bare};
ghost use Rattle.endings.specs.Why.{ExplainsRun};
ghost use Rattle.commands.specs.Runs.{Runs, StopsRun, run_of_job, session_of};
ghost use Rattle.endings.specs.Streams.{stream};
ghost use Rattle.commands.specs.Changes.{Wrote, change};
ghost use Rattle.commands.specs.Trial.{OrMemory};
ghost use Rattle.endings.specs.declared.stands.End.TheVariants.{Ended};

use crate::starts::{Ready, Start, on_table, started};
use crate::trial::{Trial, finish};
use endings::{Did, Halt, Status, not_opened};
use file_store::Store;
use job_reasons::Command;
use region_mem::Args;
use rv_listing::{Sink, Stream};
use sandbox_run::Session;
use std::alloc::Global;
use toml::Table;
use vreg_groups::Vlen;

/// `run`: checks the image of the job at `path` against its certificate, at the job's length of vector registers, runs it if
/// it is accepted, writes the job's out files and prints how many steps the run took.
///
/// In this order, up to the first that is refused or fails, which is reported: the job file, the job, the image file, the
/// image, the certificate, the check, the parameters' files by place, the start of the run, the run, the out files by
/// place, the printed line.
///
/// Where it is to `explain`, the explanation is printed behind the reason's line. Where `registers` are asked for, those that
/// the run left are printed behind its line, as `mon` shows them.
pub fn run_job<S: Store, O: Stream, E: Sink>(
    alloc: Global,
    path: &str,
    explain: bool,
    registers: bool,
    store: &mut S,
    output: &mut O,
    errors: &mut E,
) -> Status
    ensures ends { let c = (change (S.held store.old) (S.held store.new)
        (stream (O.contents output.old) (O.failures output.old))
        (stream (O.contents output.new) (O.failures output.new))) in
        Ends explain
        (OfTable (files_of c.was) path.now (λ table. Runs (files_of c.was) registers table c))
        (StopsOfTable (files_of c.was) (Wrote c) path.now
        (StopsRun (files_of c.was) registers c))
        (stream (E.contents errors.old) (E.failures errors.old))
        (stream (E.contents errors.new) (E.failures errors.new)) result }
    ensures passed { PassesOn result (O.passed output.new) (O.contents output.new) }
{
    on_table!(alloc, path, explain, store, errors; table =>
        run_table(alloc, table, registers, store, output))
}

/// `run` on a job's table.
fn run_table<'a, S: Store, O: Stream>(
    alloc: Global,
    table: &'a Table,
    registers: bool,
    store: &mut S,
    output: &mut O,
) -> Result<Did, Halt<'a>>
    ensures done { let c = (change (S.held store.old) (S.held store.new)
        (stream (O.contents output.old) (O.failures output.old))
        (stream (O.contents output.new) (O.failures output.new))) in
        MatchResult result
        (Runs (files_of c.was) registers (table_view table.entry.now) c)
        (StopsRun (files_of c.was) registers c (table_view table.entry.now)) }
    ensures passed { OnOk result (IsPassedOn (O.passed output.new) (O.contents output.new)) }
{
    let Start { ready, args } = started(alloc, table, Command::Run, store)?;
    let trial = run_accepted(alloc, &ready, args)?;
    let params = &ready.job.params;
    finish(alloc, params, &trial, None, registers, store, output)
}

/// Runs a job on an accepted image and arguments, at the job's length of vector registers and setting.
///
/// Such a run ends. It is refused for the first of: arguments that do not match the certificate's parameters, a bound above
/// the job's number of steps, and another length than the one that the image was accepted for. Want of memory comes only
/// where it is not refused.
fn run_accepted<'a>(alloc: Global, ready: &Ready<'_>, args: Args) -> Result<Trial, Halt<'a>>
    ensures answer { OrMemory (run_of_job (run_job_lent ready.now.job) ready.now.accepted
        args.places) (bare result) }
    ensures told { IfErr result (ExplainsRun ready.now.job.max ready.now.accepted args.places) }
    ensures ended { IfOk result (λ trial. trial.end ≡ Ended) }
{
    match ready.job.vlen {
        Vlen::V128 => run_session::<16>(alloc, ready, args),
        Vlen::V256 => run_session::<32>(alloc, ready, args),
        Vlen::V512 => run_session::<64>(alloc, ready, args),
    }
}

fn run_session<'a, const VLENB: usize>(
    alloc: Global,
    ready: &Ready<'_>,
    args: Args,
) -> Result<Trial, Halt<'a>>
    requires { IsVlenb VLENB }
    ensures answer { OrMemory (session_of VLENB ready.now.job.agnostic ready.now.job.max
        ready.now.accepted args.places) (bare result) }
    ensures told { IfErr result (ExplainsRun ready.now.job.max ready.now.accepted args.places) }
    ensures ended { IfOk result (λ trial. trial.end ≡ Ended) }
{
    let Ready { job, accepted } = ready;
    match Session::<VLENB>::open(alloc, accepted, args, job.agnostic, job.max) {
        Ok(mut session) => {
            let steps = session.run();
            let registers = session.registers();
            Ok(Trial::ended(steps, registers, VLENB, session.close()))
        }
        Err((error, args)) => Err(not_opened(accepted, &args, job.max, error)),
    }
}
