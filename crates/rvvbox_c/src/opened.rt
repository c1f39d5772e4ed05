//! A run that was opened, between two steps.
ghost use Rattle.std.specs.Prelude.{◌≡◌, IfSome};
ghost use Rattle.sandbox_run.specs.AnySession.{run_in};
ghost use Rattle.rvvbox_c.specs.Holds.{IsFailure};
ghost use Rattle.rvvbox_c.specs.Opened.{HasGoneOn, back_at as back_at_place, back_refusal_of};
ghost use Rattle.rvvbox_c.specs.Opened.{bit_of, named_in, registers_told, sizes_of};

use crate::forms::{Form, Forms, Slices};
use crate::status::{Refusal, Status};
use sandbox_run::AnySession;

/// How many bytes a run was opened on, by place; none where there are no bytes.
#[derive(Clone, Copy)]
pub struct Sizes {
    pub a0: Option<usize>,
    pub a1: Option<usize>,
    pub a2: Option<usize>,
    pub a3: Option<usize>,
    pub a4: Option<usize>,
    pub a5: Option<usize>,
    pub a6: Option<usize>,
    pub a7: Option<usize>,
}

/// A run, and the sizes of the bytes that it was opened on.
#[derive(Drop)]
pub struct Open {
    pub(crate) session: AnySession,
    pub(crate) sizes: Sizes,
}

/// How far a run is: whether it has ended (1) or not (0), and how many steps were done.
#[repr(C)]
#[derive(Clone, Copy)]
pub struct Progress {
    pub ended: u32,
    pub reserved: u32,
    pub steps: u64,
}

/// The registers of a run between two steps, whether it has ended (1) or not (0), and how many steps
/// were done.
#[repr(C)]
#[derive(Clone, Copy)]
pub struct Registers {
    pub pc: u32,
    pub vl: u32,
    pub vtype: u32,
    pub vxrm: u32,
    pub vxsat: u32,
    pub ended: u32,
    pub x: [u32; 32],
    pub steps: u64,
}

/// 1 of what is so, and 0 of what is not.
fn bit(is: bool) -> u32
    ensures { result ≡ bit_of is }
{
    if is { 1 } else { 0 }
}

/// How many bytes a form names, where it names any.
fn named(form: Form, bytes: &[u8]) -> Option<usize>
    ensures { result ≡ named_in form bytes.now }
{
    if form.kind < 2 {
        None
    } else {
        Some(bytes.len())
    }
}

/// What is wrong with what stands at a place, where it is to be put back.
fn back_at(place: usize, size: Option<usize>, form: Form, bytes: &[u8]) -> Option<Refusal>
    ensures told { result ≡ back_at_place place size form bytes.now }
    ensures failed { IfSome result (λ refusal. IsFailure refusal.status) }
{
    if form.kind != 2 {
        return None;
    }
    match size {
        None => Some(Refusal::at(Status::WrongKind, place)),
        Some(size) => {
            if size == bytes.len() {
                None
            } else {
                Some(Refusal::at(Status::WrongSize, place))
            }
        }
    }
}

impl Sizes {
    /// The sizes of what the forms name.
    pub(crate) fn of(forms: &Forms, bytes: &Slices) -> Sizes
        ensures { result ≡ sizes_of forms.now bytes.now }
    {
        Sizes {
            a0: named(forms.a0, bytes.a0),
            a1: named(forms.a1, bytes.a1),
            a2: named(forms.a2, bytes.a2),
            a3: named(forms.a3, bytes.a3),
            a4: named(forms.a4, bytes.a4),
            a5: named(forms.a5, bytes.a5),
            a6: named(forms.a6, bytes.a6),
            a7: named(forms.a7, bytes.a7),
        }
    }

    /// Why the run's bytes can't be put back to these: the first place that is to be put back and
    /// has another size, or has no bytes in the run.
    #[tactic(auto, using(crate::proofs::OpenLemmas::either_fails))]
    pub(crate) fn refusal(&self, forms: &Forms, bytes: &Slices) -> Option<Refusal>
        ensures told { result ≡ back_refusal_of self.now forms.now bytes.now }
        ensures failed { IfSome result (λ refusal. IsFailure refusal.status) }
    {
        let last = back_at(6, self.a6, forms.a6, bytes.a6).or(back_at(
            7, self.a7, forms.a7, bytes.a7,
        ));
        let late = back_at(5, self.a5, forms.a5, bytes.a5).or(last);
        let middle = back_at(3, self.a3, forms.a3, bytes.a3).or(back_at(
            4, self.a4, forms.a4, bytes.a4,
        ).or(late));
        let early = back_at(1, self.a1, forms.a1, bytes.a1).or(back_at(
            2, self.a2, forms.a2, bytes.a2,
        ).or(middle));
        back_at(0, self.a0, forms.a0, bytes.a0).or(early)
    }
}

impl Open {
    /// Goes on for at most `most` steps, and tells how far the run is. A run that has ended stays as
    /// it is.
    pub(crate) fn go_on(&mut self, most: u64) -> Progress
        ensures { HasGoneOn most self.old self.new result }
    {
        let ended = self.session.run_at_most(most);
        Progress {
            ended: bit(ended),
            reserved: 0,
            steps: self.session.steps(),
        }
    }

    /// The registers as they stand.
    pub(crate) fn registers(&self) -> Registers
        ensures { result ≡ registers_told (run_in self.now.session) }
    {
        let at = self.session.registers();
        let x = at.x;
        Registers {
            pc: at.pc,
            vl: at.vl,
            vtype: at.vtype,
            vxrm: at.vxrm,
            vxsat: at.vxsat,
            ended: bit(self.session.is_ended()),
            x,
            steps: self.session.steps(),
        }
    }
}
