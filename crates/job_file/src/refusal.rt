//! Why a text has no table, with what is known of it.
ghost use Rattle.std.specs.Prelude.{◌≡◌};
ghost use Rattle.job_file.specs.Refusal.{error_of};

use crate::values::JobError;

/// Why a text has no table.
#[derive(Drop)]
pub enum TextRefusal {
    /// The text is not TOML from this byte on, counted from 0. The cause is in the library's words, where there was memory
    /// to keep it.
    NotToml { byte: usize, cause: Option<String> },
    /// Memory ran out.
    NoMemory,
}

impl TextRefusal {
    /// The error alone.
    pub(crate) fn error(&self) -> JobError
        ensures { result ≡ error_of self.now }
    {
        match self {
            TextRefusal::NotToml { .. } => JobError::NotToml,
            TextRefusal::NoMemory => JobError::NoMemory,
        }
    }
}
