//! Runs of accepted images that go on for a limited number of steps at a time.
ghost use Rattle.std.specs.Prelude.{◌≡◌, ◌≤◌, ◌+◌, ◌-◌, Ok, false, if◌then◌else◌};
ghost use Rattle.sandbox_run.specs.AnySession.{run_in, vlenb_in};
ghost use Rattle.machine.specs.Run.{Ended, OutOfSteps, after, has_ended, outcome_from};

use crate::any_session::AnySession;
use crate::session::Session;
use std::alloc::Allocator;

impl<const VLENB: usize, A: Allocator> Session<VLENB, A> {
    /// Goes on for at most `most` steps, and answers whether the run has ended. A run that has ended
    /// stays as it is.
    pub fn run_at_most(&mut self, most: u64) -> bool
        ensures ended { result ≡ has_ended self.new.machine }
        ensures grows { self.old.steps ≤ self.new.steps }
        ensures after { after VLENB self.old.machine (self.new.steps - self.old.steps)
            ≡ Ok self.new.machine }
        ensures outcome { outcome_from VLENB most self.old.steps self.old.machine
            ≡ (if result then Ended self.new.steps self.new.machine
            else OutOfSteps self.new.steps self.new.machine) }
        ensures most { self.new.steps ≤ self.old.steps + most }
        ensures all { result ≡ false → self.new.steps ≡ self.old.steps + most }
        ensures bound { self.new.bound ≡ self.old.bound }
        ensures within { self.new.steps ≤ self.new.bound }
        ensures opened { self.new.first ≡ self.old.first }
        ensures parameters { self.new.parameters ≡ self.old.parameters }
    {
        self.stands();
        let mut left = most;
        'stepping: while left > 0 {
            if self.step().is_none() {
                break;
            }
            left -= 1;
        }
        self.is_ended()
    }
}

impl AnySession {
    /// As [`Session::run_at_most`].
    pub fn run_at_most(&mut self, most: u64) -> bool
        ensures vlenb { vlenb_in self.new ≡ vlenb_in self.old }
        ensures ended { result ≡ has_ended (run_in self.new).machine }
        ensures grows { (run_in self.old).steps ≤ (run_in self.new).steps }
        ensures after { after (vlenb_in self.old) (run_in self.old).machine
            ((run_in self.new).steps - (run_in self.old).steps) ≡ Ok (run_in self.new).machine }
        ensures outcome { outcome_from (vlenb_in self.old) most (run_in self.old).steps
            (run_in self.old).machine
            ≡ (if result then Ended (run_in self.new).steps (run_in self.new).machine
            else OutOfSteps (run_in self.new).steps (run_in self.new).machine) }
        ensures most { (run_in self.new).steps ≤ (run_in self.old).steps + most }
        ensures all { result ≡ false → (run_in self.new).steps ≡ (run_in self.old).steps + most }
        ensures bound { (run_in self.new).bound ≡ (run_in self.old).bound }
        ensures within { (run_in self.new).steps ≤ (run_in self.new).bound }
        ensures opened { (run_in self.new).first ≡ (run_in self.old).first }
        ensures parameters { (run_in self.new).parameters ≡ (run_in self.old).parameters }
    {
        match self {
            AnySession::V128(session) => session.run_at_most(most),
            AnySession::V256(session) => session.run_at_most(most),
            AnySession::V512(session) => session.run_at_most(most),
        }
    }
}
