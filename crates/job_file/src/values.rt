//! What a job file says.
use region_mem::Mode;
use thiserror::Error;
use vreg_groups::{Agnostic, Vlen};

/// What stands at each of the eight places.
#[derive(Drop)]
pub(crate) struct Places<P> {
    pub(crate) at: [P; 8],
}

/// One parameter of a kernel, with its keys.
#[derive(Clone, Copy)]
pub enum JobParam<T> {
    /// The place is not used.
    None,
    /// A number, given in an argument register.
    Scalar {
        lo: Option<u32>,
        hi: Option<u32>,
        value: Option<u32>,
    },
    /// Bytes in memory, whose address is given in an argument register.
    Buffer {
        mode: Option<Mode>,
        size: Option<u32>,
        file: Option<T>,
        out: Option<T>,
    },
}

/// The values of a job file's keys, with a parameter for each place.
#[derive(Drop)]
pub struct Job<T> {
    pub image: Option<T>,
    pub vlen: Option<Vlen>,
    pub agnostic: Option<Agnostic>,
    pub max: Option<u64>,
    pub params: [JobParam<T>; 8],
}

/// What `try` takes of a parameter.
#[derive(Clone, Copy)]
pub enum TryParam<T> {
    /// The place is not used.
    None,
    /// The number that is passed.
    Scalar(u32),
    /// The file whose bytes are passed, and the one that has them after the run.
    Buffer { mode: Mode, file: T, out: Option<T> },
}

/// What `run` takes of a parameter.
#[derive(Clone, Copy)]
pub enum RunParam<T> {
    /// The place is not used.
    None,
    /// The number that is passed.
    Scalar(u32),
    /// The file whose bytes are passed, and the one that has them after the run.
    Buffer { file: T, out: Option<T> },
}

/// What a subcommand that runs an image takes of a job, with what it takes of the parameter at each place.
#[derive(Drop)]
pub struct RunnableJob<T, P> {
    pub image: T,
    pub vlen: Vlen,
    pub agnostic: Agnostic,
    pub max: u64,
    pub params: [P; 8],
}

/// What `try` takes of a job.
pub type TryJob<T> = RunnableJob<T, TryParam<T>>;

/// What `run` takes of a job.
pub type RunJob<T> = RunnableJob<T, RunParam<T>>;

/// What `make` takes of a job, with a parameter for each place.
#[derive(Clone, Copy, PartialEq, Eq)]
pub struct MakeJob {
    pub vlen: Vlen,
    pub params: [region_mem::Param; 8],
}

/// Why a text is no job.
#[derive(Clone, Copy, Debug, PartialEq, Eq, Error)]
pub enum JobError {
    /// The text is not TOML.
    #[error("NotToml")]
    NotToml,
    /// The table breaks a rule of job files.
    #[error("BadKey")]
    BadKey,
    /// Memory ran out.
    #[error("out of memory")]
    NoMemory,
}
