//! What a run answers.

ghost use Rattle.std.specs.Prelude.{◌≡◌};
ghost use Rattle.sandbox_run.specs.Errors.{open_error_of};

use machine::Registers;
use region_mem::{ArgError, Args, Bytes, Fault};
use std::error::Error;
use std::fmt;
use vreg_groups::VregFile;

/// The last state of a run.
#[derive(Drop)]
pub struct Final<const VLENB: usize, B = Bytes> {
    /// How many steps were done; one that faults is not counted.
    pub steps: u64,
    /// The registers.
    pub registers: Registers,
    /// The vector registers.
    pub vectors: VregFile<VLENB>,
    /// The arguments: buffers as they stand, scalars as they were passed.
    pub args: Args<B>,
}

/// How a run stopped, and its last state.
#[derive(Drop)]
pub enum Outcome<const VLENB: usize, B = Bytes> {
    /// pc is EXIT.
    Ended(Final<VLENB, B>),
    /// The next step is this fault.
    Trapped(Fault, Final<VLENB, B>),
    /// All steps that were allowed are done, and the run has not ended.
    OutOfSteps(Final<VLENB, B>),
}

/// How a run stopped, and from where its last step was done.
#[derive(Drop)]
pub struct TriedRun<const VLENB: usize, B = Bytes> {
    /// How the run stopped, and its last state.
    pub outcome: Outcome<VLENB, B>,
    /// pc of the state before the last step that was done. `None` where no step was done.
    pub last: Option<u32>,
}

/// Why a run was not started.
#[derive(Clone, Copy, Debug, PartialEq, Eq)]
pub enum OpenError {
    /// The argument at this place is of another kind than the parameter.
    WrongKind(usize),
    /// The scalar at this place is outside its parameter's interval.
    ScalarOutOfInterval(usize),
    /// The buffer at this place has another size than the parameter says.
    WrongSize(usize),
    /// The run may take more steps than are allowed.
    BoundTooLarge,
    /// The image was accepted for another length of vector registers.
    WrongVlen,
    /// Memory was refused.
    NoMemory,
}

impl From<ArgError> for OpenError {
    ghost from_gives = { λ error result. result ≡ open_error_of error };

    fn from(error: ArgError) -> OpenError {
        match error {
            ArgError::WrongKind(place) => OpenError::WrongKind(place),
            ArgError::ScalarOutOfInterval(place) => OpenError::ScalarOutOfInterval(place),
            ArgError::WrongSize(place) => OpenError::WrongSize(place),
        }
    }
}

impl fmt::Display for OpenError {
    ghost use Rattle.std.specs.Prelude.{Some};
    ghost use Rattle.sandbox_run.specs.Errors.{error_text};

    ghost output = { λ error. Some (error_text error) };

    fn fmt<W: fmt::Write>(&self, f: &mut fmt::Formatter<W>) -> fmt::Result {
        match self {
            OpenError::WrongKind(place) => {
                write!(f, "the argument at place {place} is of the wrong kind")
            }
            OpenError::ScalarOutOfInterval(place) => {
                write!(f, "the scalar at place {place} is outside its interval")
            }
            OpenError::WrongSize(place) => {
                write!(f, "the buffer at place {place} is of the wrong size")
            }
            OpenError::BoundTooLarge => write!(f, "the run may take too many steps"),
            OpenError::WrongVlen => {
                write!(f, "the image was accepted for another vector length")
            }
            OpenError::NoMemory => write!(f, "out of memory"),
        }
    }
}

impl Error for OpenError {}
