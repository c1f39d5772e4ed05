//! `mon`: commands on the run of an image that is accepted.
ghost use Rattle.std.specs.Prelude.{◌≡◌, ◌≤◌, ◌+◌, [], IfErr, MatchResult, OnOk};
ghost use Rattle.rv_listing.specs.Sinks.{IsPassedOn};
ghost use Rattle.toml.specs.View.{table_view};
ghost use Rattle.vreg_groups.specs.VectorLength.{IsVlenb, vlenb_of};
ghost use Rattle.endings.specs.Ending.{Ends, PassesOn};
ghost use Rattle.commands.specs.Files.{OfTable, StopsOfTable};
ghost use Rattle.file_store.specs.Store.{files_of};
ghost use Rattle.endings.specs.Halt.{stop_of};
ghost use Rattle.commands.specs.Mons.{BeforeAll, IsStopped, IsUnanswered, Mons, StopsMon};
ghost use Rattle.commands.specs.Mons.{StopsWatching};
ghost use Rattle.endings.specs.Streams.{stream};
ghost use Rattle.commands.specs.Changes.{exchange};
ghost use Rattle.file_store.specs.Sources.{source};
ghost use Rattle.commands.specs.Talks.{AreTold, watch};
ghost use Rattle.file_store.specs.Written.{Gains};

use crate::files::write_outs;
use crate::lines::answer_lines;
use crate::starts::{Ready, Start, on_table, started};
use endings::{Did, Halt, Status, not_opened};
use file_store::{MOST_READS, Source, Store};
use job_reasons::Command;
use monitor::Monitor;
use region_mem::Args;
use rv_listing::{Sink, Stream};
use sandbox_run::Session;
use std::alloc::Global;
use toml::Table;
use vreg_groups::Vlen;

/// `mon`: checks the image of the job at `path` against its certificate, at the job's length of vector registers, opens its
/// run if it is accepted, answers each line of the input on standard output, up to the command `q` or the end of the input,
/// and writes the job's out files.
///
/// In this order, up to the first that is refused or fails, which is reported: the job file, the job, the image file, the
/// image, the certificate, the check, the parameters' files by place, the start of the run, the lines and their answers,
/// the out files by place.
///
/// Where it is to `explain`, the explanation is printed behind the reason's line.
pub fn mon_job<S: Store, I: Source, O: Stream, E: Sink>(
    alloc: Global,
    path: &str,
    explain: bool,
    store: &mut S,
    input: &mut I,
    output: &mut O,
    errors: &mut E,
) -> Status
    ensures ends { let e = (exchange
        (source (I.remaining input.old) (I.reads input.old) (I.failures input.old))
        (source (I.remaining input.new) (I.reads input.new) (I.failures input.new))
        (stream (O.contents output.old) (O.failures output.old))
        (stream (O.contents output.new) (O.failures output.new))) in
        let wrote = Gains (S.held store.old) (S.held store.new) in
        Ends explain
        (OfTable (files_of (S.held store.old)) path.now (λ table.
        Mons (files_of (S.held store.old)) table e (S.held store.old) (S.held store.new)))
        (StopsOfTable (files_of (S.held store.old)) (BeforeAll e wrote) path.now
        (StopsMon MOST_READS (files_of (S.held store.old)) e wrote))
        (stream (E.contents errors.old) (E.failures errors.old))
        (stream (E.contents errors.new) (E.failures errors.new)) result }
    ensures few { I.reads input.new ≤ I.reads input.old + MOST_READS }
    ensures passed { IsPassedOn (O.passed output.old) (O.contents output.old)
        → PassesOn result (O.passed output.new) (O.contents output.new) }
{
    mon_job_within(
        alloc, path, explain, store, input, output, errors, MOST_READS,
    )
}

/// As `mon_job`, with at most `reads` reads of the input. If none of them finds its end or the command `q`, it counts as one
/// that failed.
pub fn mon_job_within<S: Store, I: Source, O: Stream, E: Sink>(
    alloc: Global,
    path: &str,
    explain: bool,
    store: &mut S,
    input: &mut I,
    output: &mut O,
    errors: &mut E,
    reads: u64,
) -> Status
    ensures ends { let e = (exchange
        (source (I.remaining input.old) (I.reads input.old) (I.failures input.old))
        (source (I.remaining input.new) (I.reads input.new) (I.failures input.new))
        (stream (O.contents output.old) (O.failures output.old))
        (stream (O.contents output.new) (O.failures output.new))) in
        let wrote = Gains (S.held store.old) (S.held store.new) in
        Ends explain
        (OfTable (files_of (S.held store.old)) path.now (λ table.
        Mons (files_of (S.held store.old)) table e (S.held store.old) (S.held store.new)))
        (StopsOfTable (files_of (S.held store.old)) (BeforeAll e wrote) path.now
        (StopsMon reads (files_of (S.held store.old)) e wrote))
        (stream (E.contents errors.old) (E.failures errors.old))
        (stream (E.contents errors.new) (E.failures errors.new)) result }
    ensures few { I.reads input.new ≤ I.reads input.old + reads }
    ensures passed { IsPassedOn (O.passed output.old) (O.contents output.old)
        → PassesOn result (O.passed output.new) (O.contents output.new) }
{
    on_table!(alloc, path, explain, store, errors; table =>
        mon_table(alloc, table, store, input, output, reads))
}

/// `mon` on a job's table.
fn mon_table<'a, S: Store, I: Source, O: Stream>(
    alloc: Global,
    table: &'a Table,
    store: &mut S,
    input: &mut I,
    output: &mut O,
    reads: u64,
) -> Result<Did, Halt<'a>>
    ensures done { let e = (exchange
        (source (I.remaining input.old) (I.reads input.old) (I.failures input.old))
        (source (I.remaining input.new) (I.reads input.new) (I.failures input.new))
        (stream (O.contents output.old) (O.failures output.old))
        (stream (O.contents output.new) (O.failures output.new))) in
        MatchResult result
        (Mons (files_of (S.held store.old)) (table_view table.entry.now) e
        (S.held store.old) (S.held store.new))
        (StopsMon reads (files_of (S.held store.old)) e
        (Gains (S.held store.old) (S.held store.new)) (table_view table.entry.now)) }
    ensures few { I.reads input.new ≤ I.reads input.old + reads }
    ensures passed { OnOk result (IsPassedOn (O.passed output.old) (O.contents output.old)
        → IsPassedOn (O.passed output.new) (O.contents output.new)) }
{
    let Start { ready, args } = started(alloc, table, Command::Mon, store)?;
    let kept = mon_accepted(alloc, &ready, args, input, output, reads)?;
    write_outs(alloc, &ready.job.params, &kept.places, store)?;
    Ok(Did::Done)
}

/// Answers lines on the run of a job, at its length of vector registers and setting. The arguments come out as they stand
/// where the lines end.
fn mon_accepted<'a, I: Source, O: Stream>(
    alloc: Global,
    ready: &Ready<'_>,
    args: Args,
    input: &mut I,
    output: &mut O,
    reads: u64,
) -> Result<Args, Halt<'a>>
    ensures stopped { let e = (exchange
        (source (I.remaining input.old) (I.reads input.old) (I.failures input.old))
        (source (I.remaining input.new) (I.reads input.new) (I.failures input.new))
        (stream (O.contents output.old) (O.failures output.old))
        (stream (O.contents output.new) (O.failures output.new))) in
        MatchResult result
        (λ kept. IsStopped (vlenb_of ready.now.job.vlen) ready.now.job.agnostic ready.now.job.max
        ready.now.accepted args.places e kept.places)
        (StopsWatching reads (vlenb_of ready.now.job.vlen) ready.now.job.agnostic
        ready.now.job.max ready.now.accepted args.places e) }
    ensures few { I.reads input.new ≤ I.reads input.old + reads }
    ensures passed { OnOk result (IsPassedOn (O.passed output.old) (O.contents output.old)
        → IsPassedOn (O.passed output.new) (O.contents output.new)) }
{
    match ready.job.vlen {
        Vlen::V128 => mon_session::<16, I, O>(alloc, ready, args, input, output, reads),
        Vlen::V256 => mon_session::<32, I, O>(alloc, ready, args, input, output, reads),
        Vlen::V512 => mon_session::<64, I, O>(alloc, ready, args, input, output, reads),
    }
}

/// Answers lines on a run.
fn watch<'a, const VLENB: usize, I: Source, O: Stream>(
    alloc: Global,
    session: &mut Session<VLENB>,
    input: &mut I,
    output: &mut O,
    reads: u64,
) -> Result<(), Halt<'a>>
    ensures first { session.new.first ≡ session.old.first }
    ensures talks { OnOk result (AreTold VLENB
        (exchange
        (source (I.remaining input.old) (I.reads input.old) (I.failures input.old))
        (source (I.remaining input.new) (I.reads input.new) (I.failures input.new))
        (stream (O.contents output.old) (O.failures output.old))
        (stream (O.contents output.new) (O.failures output.new)))
        session.old session.new) }
    ensures few { I.reads input.new ≤ I.reads input.old + reads }
    ensures heard { OnOk result (I.failures input.new ≡ I.failures input.old) }
    ensures passed { OnOk result (IsPassedOn (O.passed output.old) (O.contents output.old)
        → IsPassedOn (O.passed output.new) (O.contents output.new)) }
    ensures unanswered { IfErr result (λ halt. IsUnanswered reads VLENB
        (exchange
        (source (I.remaining input.old) (I.reads input.old) (I.failures input.old))
        (source (I.remaining input.new) (I.reads input.new) (I.failures input.new))
        (stream (O.contents output.old) (O.failures output.old))
        (stream (O.contents output.new) (O.failures output.new)))
        (watch [] session.old) (stop_of halt)) }
{
    let mut monitor = Monitor::new(session);
    answer_lines(alloc, &mut monitor, input, output, reads)
}

fn mon_session<'a, const VLENB: usize, I: Source, O: Stream>(
    alloc: Global,
    ready: &Ready<'_>,
    args: Args,
    input: &mut I,
    output: &mut O,
    reads: u64,
) -> Result<Args, Halt<'a>>
    requires { IsVlenb VLENB }
    ensures stopped { let e = (exchange
        (source (I.remaining input.old) (I.reads input.old) (I.failures input.old))
        (source (I.remaining input.new) (I.reads input.new) (I.failures input.new))
        (stream (O.contents output.old) (O.failures output.old))
        (stream (O.contents output.new) (O.failures output.new))) in
        MatchResult result
        (λ kept. IsStopped VLENB ready.now.job.agnostic ready.now.job.max ready.now.accepted
        args.places e kept.places)
        (StopsWatching reads VLENB ready.now.job.agnostic ready.now.job.max ready.now.accepted
        args.places e) }
    ensures few { I.reads input.new ≤ I.reads input.old + reads }
    ensures passed { OnOk result (IsPassedOn (O.passed output.old) (O.contents output.old)
        → IsPassedOn (O.passed output.new) (O.contents output.new)) }
{
    let Ready { job, accepted } = ready;
    match Session::<VLENB>::open(alloc, accepted, args, job.agnostic, job.max) {
        Ok(mut session) => {
            watch(alloc, &mut session, input, output, reads)?;
            session.stands();
            Ok(session.close())
        }
        Err((error, args)) => Err(not_opened(accepted, &args, job.max, error)),
    }
}
