//! What a session holds.
ghost use Rattle.std.specs.Prelude.{◌≡◌, Err, IfErr, IfOk, IfSome, IsSomeAnd, None, Some};
ghost use Rattle.std.specs.Option.{option_map};
ghost use Rattle.std.specs.Result.{result_err};
ghost use Rattle.region_mem.specs.Memory.{args_of, byte_of};
ghost use Rattle.sandbox_run.specs.AnySession.{run_in};
ghost use Rattle.rvvbox_c.specs.Holds.{IsFailure};
ghost use Rattle.rvvbox_c.specs.Opened.{HasGoneOn, back_refusal_of, registers_told};
ghost use Rattle.rvvbox_c.specs.Status.{plain};
ghost use Rattle.rvvbox_c.specs.declared.status.Status.TheVariants.{NothingKept};

use crate::forms::{Forms, Slices};
use crate::opened::{Open, Progress, Registers};
use crate::status::{Refusal, Status};
use region_mem::Args;
use sandbox_run::Spare;
use std::marker::Model;

/// A run between two steps, or none where it was closed, and what a closed run left for the next
/// one. Contracts see the run alone.
#[derive(Drop)]
pub struct Standing {
    run: Option<Open>,
    spare: Option<Spare>,
}

impl Model for Standing {
    ghost use Rattle.std.specs.Prelude.{Option};
    ghost use Rattle.rvvbox_c.specs.Standing.{OpenView};

    ghost Value = { Option OpenView };

    ghost view = { λ s. s.run };
}

impl Standing {
    /// A run that stands on memory of its own.
    pub(crate) fn of(opened: Open) -> Standing
        ensures { result ≡ Some opened }
    {
        Standing {
            run: Some(opened),
            spare: None,
        }
    }

    /// Holds another run, and lets go the one that was here.
    pub(crate) fn put(&mut self, opened: Open)
        ensures { self.new ≡ Some opened }
    {
        self.run = Some(opened);
    }

    /// Takes out what a closed run left.
    pub(crate) fn take_spare(&mut self) -> Option<Spare>
        ensures { self.new ≡ self.old }
    {
        self.spare.take()
    }

    /// Holds this for the next run.
    pub(crate) fn hold_spare(&mut self, spare: Option<Spare>)
        ensures { self.new ≡ self.old }
    {
        self.spare = spare;
    }

    /// Goes on with the run for at most `most` steps, and tells how far it is.
    pub(crate) fn go_on(&mut self, most: u64) -> Option<Progress>
        ensures nothing { self.old ≡ None → result ≡ None }
        ensures none { self.old ≡ None → self.new ≡ None }
        ensures some { IfSome self.old (λ o. IsSomeAnd self.new (λ n.
            IsSomeAnd result (HasGoneOn most o n))) }
    {
        match &mut self.run {
            None => None,
            Some(opened) => Some(opened.go_on(most)),
        }
    }

    /// The run's registers as they stand.
    pub(crate) fn registers(&self) -> Option<Registers>
        ensures { result ≡ option_map (λ o. registers_told (run_in o.session)) self.now }
    {
        match &self.run {
            None => None,
            Some(opened) => Some(opened.registers()),
        }
    }

    /// The byte at an address of the run's memory, where one is there.
    pub(crate) fn byte(&self, address: u32) -> Option<Option<u8>>
        ensures { result
            ≡ option_map (λ o. byte_of address (run_in o.session).machine.memory) self.now }
    {
        match &self.run {
            None => None,
            Some(opened) => Some(opened.session.peek(address)),
        }
    }

    /// Ends the run wherever it stands, and answers its arguments, where its bytes can be put back to
    /// these. What it leaves stays here.
    pub(crate) fn close(&mut self, forms: &Forms, bytes: &Slices) -> Result<Args, Refusal>
        ensures nothing { self.old ≡ None → result ≡ Err (plain NothingKept) }
        ensures told { IfSome self.old (λ o.
            result_err result ≡ back_refusal_of o.sizes forms.now bytes.now) }
        ensures failed { IfErr result (λ refusal. IsFailure refusal.status) }
        ensures over { IfOk result (λ _. self.new ≡ None) }
        ensures kept { IfErr result (λ _. self.new ≡ self.old) }
        ensures back { IfOk result (λ args. IsSomeAnd self.old (λ o.
            args.places ≡ args_of (run_in o.session).machine.memory)) }
    {
        if let Some(refusal) = self.refusal(forms, bytes) {
            return Err(refusal);
        }
        match self.run.take() {
            None => Err(Refusal::of(Status::NothingKept)),
            Some(Open { session, .. }) => Ok(session.close_into(&mut self.spare)),
        }
    }

    /// Why the run's bytes can't be put back to these, or that there is no run.
    fn refusal(&self, forms: &Forms, bytes: &Slices) -> Option<Refusal>
        ensures nothing { self.now ≡ None → result ≡ Some (plain NothingKept) }
        ensures told { IfSome self.now (λ o.
            result ≡ back_refusal_of o.sizes forms.now bytes.now) }
        ensures failed { IfSome result (λ refusal. IsFailure refusal.status) }
    {
        match &self.run {
            None => Some(Refusal::of(Status::NothingKept)),
            Some(opened) => opened.sizes.refusal(forms, bytes),
        }
    }
}
