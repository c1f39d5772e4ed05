//! What a subcommand takes of a job: each value that it needs.
ghost use Rattle.std.specs.Prelude.{◌≡◌, ℕ, ◌<◌, IfNone, IfSome, None, Some, length, map};
ghost use Rattle.std.specs.Prelude.{option_map, slice_index_or};
ghost use Rattle.job_file.specs.Job.{job_lent, param_lent};
ghost use Rattle.job_file.specs.Needs.{make_job_of, make_param_of, taken_of};
ghost use Rattle.job_file.specs.Needs.{run_job_lent, run_job_of, run_param_lent, run_param_of};
ghost use Rattle.job_file.specs.Needs.{runnable};
ghost use Rattle.job_file.specs.Needs.{try_job_lent, try_job_of, try_param_lent, try_param_of};
ghost use Rattle.job_file.specs.declared.values.JobParam.TheVariants as param;

use crate::values::{
    Job, JobParam, MakeJob, Places, RunJob, RunParam, RunnableJob, TryJob, TryParam,
};

/// What is taken of the parameter at each place: `None` where there is nothing to take of one.
fn each_place<'a, P: Copy, F: Fn(JobParam<&'a str>) -> Option<P>>(
    params: [JobParam<&'a str>; 8],
    none: P,
    take: F,
) -> Option<Places<P>>
    requires { F.IsAlwaysCallable take }
    ensures taken { IfSome result (λ places. (length places.at ≡ 8)
        × ((k : ℕ) → k < 8 → F.post take (slice_index_or params.entry k param.None)
        (Some (slice_index_or places.at k none)))) }
    ensures missing { IfNone result ((k : ℕ) × (k < 8)
        × F.post take (slice_index_or params.entry k param.None) None) }
{
    let mut taken = [none; 8];
    for place in 0..8 {
        taken[place] = take(params[place])?;
    }
    Some(Places { at: taken })
}

/// A job that can be run, where what it needs and what is taken of its parameters is there.
fn runnable<'a, P: Drop>(
    job: Job<&'a str>,
    params: Option<Places<P>>,
) -> Option<RunnableJob<&'a str, P>>
    ensures { result ≡ runnable job.entry.image job.entry.vlen job.entry.agnostic job.entry.max
        (option_map (λ taken. taken.at) params) }
{
    Some(RunnableJob {
        image: job.image?,
        vlen: job.vlen?,
        agnostic: job.agnostic?,
        max: job.max?,
        params: params?.at,
    })
}

/// What `try` takes of a parameter: a scalar's `value`, a buffer's `mode` and `file`.
fn try_param<'a>(param: JobParam<&'a str>) -> Option<TryParam<&'a str>>
    ensures { option_map try_param_lent result ≡ try_param_of (param_lent param.entry) }
{
    match param {
        JobParam::None => Some(TryParam::None),
        JobParam::Scalar { value, .. } => Some(TryParam::Scalar(value?)),
        JobParam::Buffer {
            mode,
            file,
            out,
            ..
        } => Some(TryParam::Buffer {
            mode: mode?,
            file: file?,
            out,
        }),
    }
}

/// What `try` takes of a job: `image`, `vlen`, `agnostic`, `max` and the parameters.
pub fn try_job<'a>(job: Job<&'a str>) -> Option<TryJob<&'a str>>
    ensures { option_map try_job_lent result ≡ try_job_of (job_lent job.entry) }
{
    let params = each_place(job.params, TryParam::None, try_param);
    runnable(job, params)
}

/// What `run` takes of a parameter: a scalar's `value`, a buffer's `file`.
fn run_param<'a>(param: JobParam<&'a str>) -> Option<RunParam<&'a str>>
    ensures { option_map run_param_lent result ≡ run_param_of (param_lent param.entry) }
{
    match param {
        JobParam::None => Some(RunParam::None),
        JobParam::Scalar { value, .. } => Some(RunParam::Scalar(value?)),
        JobParam::Buffer { file, out, .. } => Some(RunParam::Buffer { file: file?, out }),
    }
}

/// What `run` takes of a job: `image`, `vlen`, `agnostic`, `max` and the parameters.
pub fn run_job<'a>(job: Job<&'a str>) -> Option<RunJob<&'a str>>
    ensures { option_map run_job_lent result ≡ run_job_of (job_lent job.entry) }
{
    let params = each_place(job.params, RunParam::None, run_param);
    runnable(job, params)
}

/// What `make` takes of a parameter: a scalar's `lo` and `hi`, a buffer's `mode` and `size`.
fn make_param(param: JobParam<&str>) -> Option<region_mem::Param>
    ensures { result ≡ make_param_of (param_lent param.entry) }
{
    match param {
        JobParam::None => Some(region_mem::Param::None),
        JobParam::Scalar { lo, hi, .. } => Some(region_mem::Param::Scalar { lo: lo?, hi: hi? }),
        JobParam::Buffer { mode, size, .. } => Some(region_mem::Param::Buffer {
            mode: mode?,
            size: size?,
        }),
    }
}

/// What `make` takes of the parameters, by place.
fn make_params(params: [JobParam<&str>; 8]) -> Option<Places<region_mem::Param>>
    ensures { option_map (λ made. made.at) result
        ≡ taken_of make_param_of (map param_lent params.entry) }
{
    each_place(params, region_mem::Param::None, make_param)
}

/// What `make` takes of a job: `vlen` and the parameters.
pub fn make_job(job: Job<&str>) -> Option<MakeJob>
    ensures { result ≡ make_job_of (job_lent job.entry) }
{
    Some(MakeJob {
        vlen: job.vlen?,
        params: make_params(job.params)?.at,
    })
}
