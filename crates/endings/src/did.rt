//! What a subcommand did, and its explanation: where a run stopped.
ghost use Rattle.std.specs.Prelude.{◌≡◌};
ghost use Rattle.endings.specs.Did.{status_with, stopped_at};

use crate::stands::Stand;
use crate::stop::Status;
use region_mem::Fault;
use std::fmt;

/// What a subcommand did. It shows the explanation of that.
#[derive(Drop)]
pub enum Did {
    /// All was done.
    Done,
    /// The run stopped, and memory ran out where it was to be told at which place.
    Stopped,
    /// The run stopped there, where it met the fault, if it did.
    StoppedAt { fault: Option<Fault>, stand: Stand },
}

/// A run stopped, there if memory sufficed to tell that, where it met the fault, if it did.
pub fn stopped_at(fault: Option<Fault>, stand: Option<Stand>) -> Did
    ensures { result ≡ stopped_at fault stand }
{
    match stand {
        Some(stand) => Did::StoppedAt { fault, stand },
        None => Did::Stopped,
    }
}

impl Did {
    /// The status of what was done.
    pub fn status(&self) -> Status
        ensures { result ≡ status_with self.now }
    {
        match self {
            Did::Done => Status::Done,
            Did::Stopped | Did::StoppedAt { .. } => Status::Stopped,
        }
    }
}

impl fmt::Display for Did {
    ghost use Rattle.std.specs.Prelude.{Some};
    ghost use Rattle.endings.specs.Did.{did_text};

    ghost output = { λ did. Some (did_text did) };

    fn fmt<W: fmt::Write>(&self, f: &mut fmt::Formatter<W>) -> fmt::Result {
        match self {
            Did::Done | Did::Stopped => Ok(()),
            Did::StoppedAt { fault: None, stand } => write!(f, "{stand}"),
            Did::StoppedAt {
                fault: Some(fault),
                stand,
            } => write!(f, "  {fault}\n{stand}"),
        }
    }
}
