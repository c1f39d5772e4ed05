//! `try`: a job on any image, with every test at each step.
ghost use Rattle.std.specs.Prelude.{◌≡◌, IfErr, IfOk, MatchResult, OnOk, map};
ghost use Rattle.job_file.specs.Needs.{run_param_lent, try_job_lent, try_param_lent};
ghost use Rattle.rv_listing.specs.Sinks.{IsPassedOn};
ghost use Rattle.toml.specs.View.{table_view};
ghost use Rattle.machine.specs.Start.{start};
ghost use Rattle.sandbox_run.specs.Answer.{last_pc, steps_of};
ghost use Rattle.vreg_groups.specs.VectorLength.{IsVlenb};
ghost use Rattle.endings.specs.Ending.{Ends, PassesOn};
ghost use Rattle.commands.specs.Files.{OfTable, StopsOfTable};
ghost use Rattle.file_store.specs.Store.{files_of};
ghost use Rattle.endings.specs.Streams.{stream};
ghost use Rattle.commands.specs.Changes.{Wrote, change};
ghost use Rattle.commands.specs.Trial.{OrMemory, trial_at};
ghost use Rattle.commands.specs.Tries.{ExplainsTrial, StopsTry, Tries, bare_tried, last_of};
ghost use Rattle.commands.specs.Tries.{param_for, params_for, passed_by, passed_size, run_of};
ghost use Rattle.commands.specs.Tries.{trial_of};
ghost use Rattle.endings.specs.Why.{ExplainsOpened};

use crate::files::{read_args, read_image};
use crate::starts::{on_table, taken};
use crate::trial::{Trial, finish, trial_at};
use elf_image::Image;
use endings::{Did, End, Halt, Status, not_started};
use file_store::Store;
use job_file::{RunParam, TryJob, TryParam, try_job_in};
use job_reasons::{Command, parameter_reason};
use region_mem::{Arg, Args, Param, Parameters};
use rv_listing::{Sink, Stream};
use sandbox_run::{Outcome, TriedRun, try_run_with_last};
use std::alloc::Global;
use toml::Table;
use vreg_groups::Vlen;

/// `try`: runs the image of the job at `path`, accepted or not, with every test at each step, writes the job's out files
/// and prints how the run ended.
///
/// In this order, up to the first that is refused or fails, which is reported: the job file, the job, the image file, the
/// image, the parameters' files by place, the parameters, the run, the out files by place, the printed line.
///
/// Where it is to `explain`, the explanation is printed behind the reason's line. Where `registers` are asked for, those that
/// the run left are printed behind its line, as `mon` shows them.
pub fn try_job<S: Store, O: Stream, E: Sink>(
    alloc: Global,
    path: &str,
    explain: bool,
    registers: bool,
    store: &mut S,
    output: &mut O,
    errors: &mut E,
) -> Status
    ensures ends { let c = (change (S.held store.old) (S.held store.new)
        (stream (O.contents output.old) (O.failures output.old))
        (stream (O.contents output.new) (O.failures output.new))) in
        Ends explain
        (OfTable (files_of c.was) path.now (λ table. Tries (files_of c.was) registers table c))
        (StopsOfTable (files_of c.was) (Wrote c) path.now
        (StopsTry (files_of c.was) registers c))
        (stream (E.contents errors.old) (E.failures errors.old))
        (stream (E.contents errors.new) (E.failures errors.new)) result }
    ensures passed { PassesOn result (O.passed output.new) (O.contents output.new) }
{
    on_table!(alloc, path, explain, store, errors; table =>
        try_table(alloc, table, explain, registers, store, output))
}

/// `try` on a job's table.
fn try_table<'a, S: Store, O: Stream>(
    alloc: Global,
    table: &'a Table,
    explain: bool,
    registers: bool,
    store: &mut S,
    output: &mut O,
) -> Result<Did, Halt<'a>>
    ensures done { let c = (change (S.held store.old) (S.held store.new)
        (stream (O.contents output.old) (O.failures output.old))
        (stream (O.contents output.new) (O.failures output.new))) in
        MatchResult result
        (Tries (files_of c.was) registers (table_view table.entry.now) c)
        (StopsTry (files_of c.was) registers c (table_view table.entry.now)) }
    ensures passed { OnOk result (IsPassedOn (O.passed output.new) (O.contents output.new)) }
{
    let job = taken(alloc, try_job_in(table), table, Command::Try)?;
    let image = read_image(alloc, job.image, store)?;
    let passed = passed_params(&job.params);
    let args = read_args(alloc, &passed, store)?;
    let Tried { trial, last } = run_tried(alloc, &job, &image, args)?;
    let stand = trial.stand(alloc, explain, &image, last);
    finish(alloc, &passed, &trial, stand, registers, store, output)
}

/// What comes of a run, and pc of the state before its last step, if it did one.
#[derive(Drop)]
struct Tried {
    trial: Trial,
    last: Option<u32>,
}

/// Runs a job on an image and on arguments, at the job's length of vector registers, setting and number of steps.
///
/// A scalar may have the one value that the job gives it, and a buffer has the size of what is passed. `BadKey` comes
/// where there are no such parameters, then the error of arguments that do not match them, and want of memory last.
fn run_tried<'a>(
    alloc: Global,
    job: &TryJob<&str>,
    image: &Image,
    args: Args,
) -> Result<Tried, Halt<'a>>
    ensures answer { OrMemory (trial_of (try_job_lent job.now) image.now args.places)
        (bare_tried result) }
    ensures last { IfOk result (λ tried. tried.last ≡ last_of (try_job_lent job.now)
        image.now args.places tried.trial.steps) }
    ensures told { IfErr result (ExplainsTrial (try_job_lent job.now) args.places) }
{
    let params = params_for(&job.params, &args.places);
    let Some(parameters) = Parameters::new(params) else {
        return Err(Halt::Parameters(parameter_reason(&params)));
    };
    match job.vlen {
        Vlen::V128 => run::<16>(alloc, job, image, &parameters, args),
        Vlen::V256 => run::<32>(alloc, job, image, &parameters, args),
        Vlen::V512 => run::<64>(alloc, job, image, &parameters, args),
    }
}

/// The parameter of a place of a job, for what is passed there.
fn param_for(param: &TryParam<&str>, arg: &Arg) -> Param
    ensures { result ≡ param_for (try_param_lent param.now, arg.now) }
{
    match param {
        TryParam::None => Param::None,
        TryParam::Scalar(value) => Param::Scalar {
            lo: *value,
            hi: *value,
        },
        TryParam::Buffer { mode, .. } => Param::Buffer {
            mode: *mode,
            size: size_of(arg),
        },
    }
}

/// How many bytes are passed, where 32 bits hold the number.
fn size_of(arg: &Arg) -> u32
    ensures { result ≡ passed_size arg.now }
{
    match arg {
        Arg::None | Arg::Scalar(_) => 0,
        Arg::Buffer(bytes) => u32::try_from(bytes.len()).unwrap_or(u32::MAX),
    }
}

/// The parameters of a job, by place.
fn params_for(params: &[TryParam<&str>; 8], args: &[Arg; 8]) -> [Param; 8]
    ensures { result ≡ params_for (map try_param_lent params.now) args.now }
{
    let mut made = [Param::None; 8];
    for place in 0..8 {
        made[place] = param_for(&params[place], &args[place]);
    }
    made
}

fn run<'a, const VLENB: usize>(
    alloc: Global,
    job: &TryJob<&str>,
    image: &Image,
    parameters: &Parameters,
    args: Args,
) -> Result<Tried, Halt<'a>>
    requires { IsVlenb VLENB }
    ensures answer { OrMemory (run_of VLENB job.now.agnostic job.now.max
        image.now args.places parameters.now) (bare_tried result) }
    ensures last { IfOk result (λ tried. tried.last ≡ last_pc VLENB
        (start VLENB job.now.agnostic image.now parameters.now args.places) tried.trial.steps) }
    ensures told { IfErr result (ExplainsOpened parameters.now args.places 0 job.now.max) }
{
    match try_run_with_last::<VLENB>(alloc, image, parameters, args, job.agnostic, job.max) {
        Ok(TriedRun { outcome, last }) => Ok(Tried {
            trial: trial_after(outcome),
            last,
        }),
        Err((error, args)) => Err(not_started(parameters, &args, 0, job.max, error)),
    }
}

/// What comes of a run that stopped so.
fn trial_after<const VLENB: usize>(outcome: Outcome<VLENB>) -> Trial
    ensures trial { result ≡ trial_at outcome.entry }
    ensures steps { result.steps ≡ steps_of VLENB outcome.entry }
{
    match outcome {
        Outcome::Ended(last) => trial_at(End::Ended, last),
        Outcome::Trapped(fault, last) => trial_at(End::Trapped(fault), last),
        Outcome::OutOfSteps(last) => trial_at(End::OutOfSteps, last),
    }
}

fn passed<'a>(param: &TryParam<&'a str>) -> RunParam<&'a str>
    ensures { run_param_lent result ≡ passed_by (try_param_lent param.now) }
{
    match param {
        TryParam::None => RunParam::None,
        TryParam::Scalar(value) => RunParam::Scalar(*value),
        TryParam::Buffer { file, out, .. } => RunParam::Buffer {
            file: *file,
            out: *out,
        },
    }
}

/// What the parameters of `try` pass, by place, as those of `run` do.
fn passed_params<'a>(params: &[TryParam<&'a str>; 8]) -> [RunParam<&'a str>; 8]
    ensures { map run_param_lent result ≡ map passed_by (map try_param_lent params.now) }
{
    let mut made = [RunParam::None; 8];
    for place in 0..8 {
        made[place] = passed(&params[place]);
    }
    made
}
