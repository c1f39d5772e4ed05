//! Why no certificate is made of a loop: the word that does not fit, and the parameters of the job that it has to fit.
ghost use Rattle.std.specs.Prelude.{◌≡◌, IfOk};
ghost use Rattle.job_reasons.specs.Loops.{IsLoopReason, mode_name};

use crate::make::{MakeReason, word_reason};
use cert_maker::Misfit;
use region_mem::{Mode, Param};
use std::alloc::{AllocError, Global};
use std::fmt;

/// Why no certificate is made of a loop for the parameters of a job.
#[derive(Drop)]
pub struct LoopReason {
    /// The word that does not fit.
    pub word: MakeReason,
    /// The parameters, by place.
    pub params: [Param; 8],
}

/// Why no certificate is made of an image for these parameters: this word does not fit. A word may fit other parameters,
/// so all are told.
///
/// # Errors
/// An allocation was refused.
pub fn loop_reason(
    alloc: Global,
    misfit: Misfit,
    params: &[Param; 8],
) -> Result<LoopReason, AllocError>
    ensures { IfOk result (IsLoopReason params.now misfit) }
{
    let word = word_reason(alloc, misfit)?;
    Ok(LoopReason {
        word,
        params: *params,
    })
}

/// A mode as jobs spell it.
fn mode_name(mode: Mode) -> &'static str
    ensures { result.now ≡ mode_name mode }
{
    match mode {
        Mode::Read => "r",
        Mode::ReadWrite => "rw",
    }
}

/// What is passed at a place, as a line. There is no line where nothing is.
#[derive(Clone, Copy)]
struct ParamLine {
    place: usize,
    param: Param,
}

impl fmt::Display for ParamLine {
    ghost use Rattle.std.specs.Prelude.{Some};
    ghost use Rattle.job_reasons.specs.Loops.{param_line};

    ghost output = { λ line. Some (param_line line.place line.param) };

    fn fmt<W: fmt::Write>(&self, f: &mut fmt::Formatter<W>) -> fmt::Result {
        let place = self.place;
        match self.param {
            Param::None => Ok(()),
            Param::Scalar { lo, hi } => writeln!(f, "  a{place}: scalar from {lo} to {hi}"),
            Param::Buffer { mode, size } => {
                let mode = mode_name(mode);
                writeln!(f, "  a{place}: buffer of {size} bytes, mode {mode}")
            }
        }
    }
}

/// What is passed at all places, a line each.
#[derive(Clone, Copy)]
struct ParamLines<'a>(&'a [Param]);

impl fmt::Display for ParamLines<'_> {
    ghost use Rattle.std.specs.Prelude.{Some};
    ghost use Rattle.job_reasons.specs.Loops.{param_lines};

    ghost output = { λ lines. Some (param_lines 0 lines.0.now) };

    fn fmt<W: fmt::Write>(&self, f: &mut fmt::Formatter<W>) -> fmt::Result {
        for (place, param) in self.0.iter().enumerate() {
            let line = ParamLine {
                place,
                param: *param,
            };
            write!(f, "{line}")?;
        }
        Ok(())
    }
}

impl fmt::Display for LoopReason {
    ghost use Rattle.std.specs.Prelude.{Some};
    ghost use Rattle.job_reasons.specs.Loops.{loop_text};

    ghost output = { λ reason. Some (loop_text reason) };

    fn fmt<W: fmt::Write>(&self, f: &mut fmt::Formatter<W>) -> fmt::Result {
        let word = &self.word;
        let params = ParamLines(self.params.as_slice());
        write!(f, "{word}{params}")
    }
}
