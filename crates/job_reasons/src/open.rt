//! Why a run was not started: what a parameter wants, and what was passed.
ghost use Rattle.std.specs.Prelude.{◌≡◌};
ghost use Rattle.job_reasons.specs.Open.{argument_at, given_of, reason_of};

use region_mem::{Arg, Args, Bytes, Mode, Param, Parameters};
use sandbox_run::OpenError;
use std::alloc::Allocator;
use std::fmt;

/// What was passed at a place: of a buffer, how many bytes it has.
#[derive(Clone, Copy, PartialEq, Eq)]
pub enum Given {
    None,
    Scalar(u32),
    Buffer(usize),
}

/// Why a run was not started.
#[derive(Clone, Copy, PartialEq, Eq)]
pub enum OpenReason {
    /// There is nothing to tell.
    Untold,
    /// What the parameter at a place wants, and what was passed there.
    Argument {
        place: usize,
        wanted: Param,
        given: Given,
    },
    /// How many steps the run may take, and how many are allowed.
    Bound {
        bound: u128,
        max: u64,
    },
    /// The image was accepted for another length of vector registers.
    Length,
}

fn given_of<A: Allocator>(arg: &Arg<Bytes<A>>) -> Given
    ensures { result ≡ given_of arg.now }
{
    match arg {
        Arg::None => Given::None,
        Arg::Scalar(number) => Given::Scalar(*number),
        Arg::Buffer(bytes) => Given::Buffer(bytes.len()),
    }
}

/// What the parameter at a place wants, and what was passed there.
fn argument_at<A: Allocator>(
    place: usize,
    parameters: &Parameters,
    args: &Args<Bytes<A>>,
) -> OpenReason
    ensures { result ≡ argument_at place parameters.now args.now.places }
{
    let params = parameters.to_array();
    let Some(wanted) = params.get(place) else {
        return OpenReason::Untold;
    };
    let Some(passed) = args.places.get(place) else {
        return OpenReason::Untold;
    };
    OpenReason::Argument {
        place,
        wanted: *wanted,
        given: given_of(passed),
    }
}

/// Why a run of these arguments was not started: at an argument's place what its parameter wants and what was passed; the
/// run's bound and the steps that are allowed. `Untold` where memory ran out.
pub fn open_reason<A: Allocator>(
    parameters: &Parameters,
    args: &Args<Bytes<A>>,
    bound: u128,
    max: u64,
    error: OpenError,
) -> OpenReason
    ensures { result ≡ reason_of parameters.now args.now.places bound max error }
{
    match error {
        OpenError::WrongKind(place) => argument_at(place, parameters, args),
        OpenError::ScalarOutOfInterval(place) => argument_at(place, parameters, args),
        OpenError::WrongSize(place) => argument_at(place, parameters, args),
        OpenError::BoundTooLarge => OpenReason::Bound { bound, max },
        OpenError::WrongVlen => OpenReason::Length,
        OpenError::NoMemory => OpenReason::Untold,
    }
}

/// What a parameter wants.
#[derive(Clone, Copy)]
struct Wanted(Param);

impl fmt::Display for Wanted {
    ghost use Rattle.std.specs.Prelude.{Some};
    ghost use Rattle.job_reasons.specs.Open.{param_text};

    ghost output = { λ wanted. Some (param_text wanted.0) };

    fn fmt<W: fmt::Write>(&self, f: &mut fmt::Formatter<W>) -> fmt::Result {
        match self.0 {
            Param::None => write!(f, "nothing"),
            Param::Scalar { lo, hi } => write!(f, "a number in {lo}..={hi}"),
            Param::Buffer { mode, size } => match mode {
                Mode::Read => write!(f, "a buffer of {size} bytes to read"),
                Mode::ReadWrite => write!(f, "a buffer of {size} bytes to read and write"),
            },
        }
    }
}

impl fmt::Display for Given {
    ghost use Rattle.std.specs.Prelude.{Some};
    ghost use Rattle.job_reasons.specs.Open.{given_text};

    ghost output = { λ given. Some (given_text given) };

    fn fmt<W: fmt::Write>(&self, f: &mut fmt::Formatter<W>) -> fmt::Result {
        match *self {
            Given::None => write!(f, "nothing"),
            Given::Scalar(number) => write!(f, "the number {number}"),
            Given::Buffer(size) => write!(f, "a buffer of {size} bytes"),
        }
    }
}

impl fmt::Display for OpenReason {
    ghost use Rattle.std.specs.Prelude.{Some};
    ghost use Rattle.job_reasons.specs.Open.{open_text};

    ghost output = { λ reason. Some (open_text reason) };

    fn fmt<W: fmt::Write>(&self, f: &mut fmt::Formatter<W>) -> fmt::Result {
        match *self {
            OpenReason::Untold => Ok(()),
            OpenReason::Argument {
                place,
                wanted,
                given,
            } => {
                let wanted = Wanted(wanted);
                write!(
                    f,
                    "  wanted at place {place}: {wanted}\n  passed: {given}\n"
                )
            }
            OpenReason::Bound { bound, max } => {
                write!(f, "  bound of the run: {bound}\n  wanted: at most {max}\n")
            }
            OpenReason::Length => {
                writeln!(
                    f,
                    "  wanted: the length of vector registers of the certificate"
                )
            }
        }
    }
}
