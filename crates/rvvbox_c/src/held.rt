//! What a kernel holds.
ghost use Rattle.std.specs.Prelude.{◌≡◌};

use block_checker::Accepted;
use sandbox_run::Spare;
use std::marker::Model;
use std::sync::Arc;

/// An accepted image that may be shared with other kernels, and what the kernel's last run left for
/// its next one. Contracts see the image alone.
#[derive(Drop)]
pub struct Held {
    accepted: Arc<Accepted>,
    spare: Option<Spare>,
}

impl Model for Held {
    ghost use Rattle.rvvbox_c.specs.Shared.{SharedView};

    ghost Value = { SharedView };

    ghost view = { λ h. h.accepted };
}

impl Held {
    /// An accepted image that no run was made of.
    pub(crate) fn of(accepted: Arc<Accepted>) -> Held
        ensures { result ≡ accepted }
    {
        Held {
            accepted,
            spare: None,
        }
    }

    /// The accepted image.
    pub(crate) fn accepted(&self) -> &Arc<Accepted>
        ensures { result.now ≡ self.now }
    {
        &self.accepted
    }

    /// Takes out what the last run left.
    pub(crate) fn take_spare(&mut self) -> Option<Spare>
        ensures { self.new ≡ self.old }
    {
        self.spare.take()
    }

    /// Holds this for the next run.
    pub(crate) fn hold_spare(&mut self, spare: Option<Spare>)
        ensures { self.new ≡ self.old }
    {
        self.spare = spare;
    }
}
