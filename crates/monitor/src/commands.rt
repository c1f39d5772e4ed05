//! Commands, and what comes of one.

ghost use Rattle.std.specs.Prelude.{◌≡◌};
ghost use Rattle.monitor.specs.Commands.{error_text, flow_of};

use rv_decode::Reg;
use std::error::Error;
use std::fmt;

/// What a line asks for, with numbers that were judged.
#[derive(Clone, Copy, PartialEq, Eq)]
pub enum Command {
    /// `b`: a breakpoint at an address, a multiple of 4.
    Break(u32),
    /// `d`: no breakpoint at an address.
    Delete(u32),
    /// `s`: at most that number of steps.
    Step(u32),
    /// `c`: one step, and then on to a breakpoint or the end.
    Continue,
    /// `x`: the integer registers.
    Registers,
    /// `v`: the bytes of a vector register.
    Vector(Reg),
    /// `csr`: pc, and what the vector extension keeps beside its registers.
    Csrs,
    /// `m`: `count` bytes from an address on, 1 to 256.
    Memory {
        /// Where the first lies.
        address: u32,
        /// How many.
        count: u32,
    },
    /// `l`: a listing of `count` words from an address on, 1 to 256.
    List {
        /// Where the first lies.
        address: u32,
        /// How many.
        count: u32,
    },
    /// `q`: no more.
    Quit,
}

/// Whether commands go on.
#[derive(Clone, Copy, PartialEq, Eq)]
pub enum Flow {
    /// The next command is awaited.
    Go,
    /// None is.
    Quit,
}

/// Why a line was not done, or not told.
#[derive(Clone, Copy, Debug, PartialEq, Eq)]
pub enum MonError {
    /// Its first word is no command's, or the command takes another number of words.
    Unknown,
    /// A word is no number, or one that the command does not take.
    BadNumber,
    /// A breakpoint more than the sixteen that are set.
    TooManyBreakpoints,
    /// There is no breakpoint at that address.
    NotThere,
    /// A byte that no region holds, or a word that can't be fetched.
    NoBytes,
    /// The sink failed. The command was carried out, and its text may be cut.
    Write,
}

impl Command {
    /// Whether commands go on after this one.
    pub(crate) fn flow(&self) -> Flow
        ensures { result ≡ flow_of self.now }
    {
        match self {
            Command::Break(_)
            | Command::Delete(_)
            | Command::Step(_)
            | Command::Continue
            | Command::Registers
            | Command::Vector(_)
            | Command::Csrs
            | Command::Memory { .. }
            | Command::List { .. } => Flow::Go,
            Command::Quit => Flow::Quit,
        }
    }
}

impl MonError {
    /// Why the line was not done, or not told, in words.
    fn words(self) -> &'static str
        ensures { result.now ≡ error_text self }
    {
        match self {
            MonError::Unknown => "unknown command",
            MonError::BadNumber => "no number that the command takes",
            MonError::TooManyBreakpoints => "sixteen breakpoints are set",
            MonError::NotThere => "no breakpoint there",
            MonError::NoBytes => "no bytes there",
            MonError::Write => "the text could not be written",
        }
    }
}

impl fmt::Display for MonError {
    ghost use Rattle.std.specs.Prelude.{Some};
    ghost use Rattle.monitor.specs.Commands.{error_text};

    ghost output = { λ error. Some (error_text error) };

    fn fmt<W: fmt::Write>(&self, f: &mut fmt::Formatter<W>) -> fmt::Result {
        f.write_str(self.words())
    }
}

impl Error for MonError {}
