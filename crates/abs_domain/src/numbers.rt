//! The numbers of the registers and of vl, as far as they are known.
ghost use Rattle.std.specs.Prelude.{◌≡◌, ◌<◌, ◌≤◌, length, replicate, vec_capacity, IfOk};
ghost use Rattle.linear_facts.specs.Forms.{number_form};
ghost use Rattle.abs_domain.specs.Numbers.{zero_numbers, table_of, value_at};
ghost use Rattle.abs_domain.specs.Numbers.{whole_atom as whole_atom_of};
ghost use Rattle.abs_domain.specs.Numbers.{with_atom, with_value, with_fresh, with_computed};
ghost use Rattle.abs_domain.specs.Numbers.{with_effect, with_result};
ghost use Rattle.abs_domain.specs.Numbers.{with_split};

use crate::values::{Effect, Value, computed_range, or_full};
use linear_facts::{Atom, Atoms, Form, Range, Split};
use rv_decode::Reg;
use std::alloc::{AllocError, Allocator, Global};
use std::marker::Model;

/// The number of vl, behind those of x0 to x31.
pub const VL: usize = 32;

/// How many numbers there are: those of x0 to x31, and behind them that of vl.
pub const NUMBERS: usize = VL + 1;

/// How many atoms there may be.
pub const MOST_ATOMS: usize = 8300;

/// What is known of the numbers of x0 to x31 and, as number 32, of vl: each has a form over atoms and a range. All memory is
/// taken at the start. `A` is the allocator.
#[derive(Drop)]
pub struct Numbers<A: Allocator = Global> {
    pub(crate) atoms: Vec<Atom, A>,
    pub(crate) forms: Vec<Form<8>, A>,
    pub(crate) ranges: [Range; NUMBERS],
}

impl<A: Allocator> Model for Numbers<A> {
    ghost use Rattle.std.specs.Prelude.{◌≡◌, ◌≤◌, length, vec_capacity};
    ghost use Rattle.abs_domain.specs.Numbers.{NumbersView};
    ghost use Rattle.abs_domain.specs.declared.numbers.TheConstants.{MOST_ATOMS, NUMBERS};

    ghost Value = { NumbersView };

    ghost view = { λ s. record {
      atoms = s.atoms.items;
      forms = s.forms.items;
      ranges = s.ranges;
    } };

    // There is a form of each number, and room for all atoms.
    ghost invariant = { λ s. (length s.forms.items ≡ NUMBERS) × (MOST_ATOMS ≤ vec_capacity s.atoms) };
}

/// As many forms as there are numbers, each the number 0.
fn zeros<A: Allocator>(alloc: A) -> Result<Vec<Form<8>, A>, AllocError>
    ensures { IfOk result (λ v. v.items ≡ replicate NUMBERS (number_form 0)) }
{
    let mut forms = Vec::with_capacity(alloc, NUMBERS)?;
    for _number in 0..NUMBERS {
        forms.push(Form::number(0))?;
    }
    Ok(forms)
}

/// The atom that a form is, if it is one.
#[tactic(auto, unfolding(crate::specs::Numbers::whole_atom))]
pub fn whole_atom(form: &Form<8>) -> Option<u16>
    ensures { result ≡ whole_atom_of form.now }
{
    match form.terms() {
        [term] => if form.constant == 0 && term.coefficient == 1 {
            Some(term.atom)
        } else {
            None
        },
        _ => None,
    }
}

impl<A: Allocator> Numbers<A> {
    /// No atoms, and every number is 0. The memory that later calls need is taken here.
    #[tactic(auto, unfolding(crate::specs::Numbers::zero_numbers))]
    pub fn new(alloc: A) -> Result<Numbers<A>, AllocError>
    where
        A: Copy,
        ensures { IfOk result (λ numbers. numbers ≡ zero_numbers) }
    {
        Ok(Numbers {
            atoms: Vec::with_capacity(alloc, MOST_ATOMS)?,
            forms: zeros(alloc)?,
            ranges: [Range { lo: 0, hi: 0 }; NUMBERS],
        })
    }

    /// The numbers with these atoms, forms and ranges.
    pub(crate) fn by(
        atoms: Vec<Atom, A>,
        forms: Vec<Form<8>, A>,
        ranges: [Range; NUMBERS],
    ) -> Numbers<A>
        requires room { MOST_ATOMS ≤ vec_capacity atoms }
        requires count { length forms.items ≡ NUMBERS }
        ensures { result ≡ record { atoms = atoms.items; forms = forms.items; ranges = ranges } }
    {
        Numbers {
            atoms,
            forms,
            ranges,
        }
    }

    /// What is known of the atoms.
    pub fn table(&self) -> Atoms<'_>
        ensures { result ≡ table_of self.now }
    {
        Atoms {
            atoms: self.atoms.as_slice(),
            first: None,
            second: None,
        }
    }

    /// What is known of the number of a register (0 to 31) or of vl (32).
    #[tactic(auto, unfolding(crate::specs::Numbers::value_at))]
    pub fn value(&self, number: usize) -> Value<'_>
        requires { number < NUMBERS }
        ensures { result ≡ value_at self.now number }
    {
        Value {
            form: &self.forms[number],
            range: self.ranges[number],
        }
    }

    /// The range of the number of a register (0 to 31) or of vl (32).
    #[tactic(auto, unfolding(crate::specs::Numbers::value_at))]
    pub fn range_at(&self, number: usize) -> Range
        requires { number < NUMBERS }
        ensures { result ≡ (value_at self.now number).range }
    {
        self.ranges[number]
    }

    /// The forms of x0 to x31 and, as number 32, of vl.
    pub fn forms(&self) -> &[Form<8>]
        ensures { result.now ≡ self.now.forms }
    {
        self.forms.as_slice()
    }

    /// The ranges of x0 to x31 and, as number 32, of vl.
    pub fn ranges(&self) -> [Range; NUMBERS]
        ensures { result ≡ self.now.ranges }
    {
        self.ranges
    }

    /// A new atom in this range. The answer is its number.
    pub fn push_atom(&mut self, range: Range) -> u16
        requires { length self.old.atoms < MOST_ATOMS }
        ensures atoms { self.new ≡ with_atom range self.old }
        ensures number { result ≡ length self.old.atoms }
    {
        let atom = self.atoms.len() as u16;
        self.atoms.push(Atom { range, split: None }).unwrap();
        atom
    }

    /// An atom, if there is one of this number, is the sum of two others, whatever it was before.
    #[tactic(auto, unfolding(crate::specs::Numbers::with_split))]
    pub fn split_atom(&mut self, atom: u16, split: Split)
        ensures { self.new ≡ record self.old { atoms = with_split atom split self.old.atoms } }
    {
        let atom = usize::from(atom);
        if atom < self.atoms.len() {
            self.atoms[atom].split = Some(split);
        }
    }

    /// The number is one that is known.
    #[tactic(auto, unfolding(crate::specs::Numbers::with_value))]
    pub fn set_value(&mut self, number: usize, form: Form<8>, range: Range)
        requires { number < NUMBERS }
        ensures { self.new ≡ with_value number record { form = form; range = range } self.old }
    {
        self.forms[number] = form;
        self.ranges[number] = range;
    }

    /// The number is a new atom in this range.
    #[tactic(auto, unfolding(crate::specs::Numbers::with_fresh))]
    pub fn set_fresh(&mut self, number: usize, range: Range)
        requires number { number < NUMBERS }
        requires room { length self.old.atoms < MOST_ATOMS }
        ensures { self.new ≡ with_fresh number range self.old }
    {
        let atom = self.push_atom(range);
        self.set_value(number, Form::atom(atom), range);
    }

    /// The number is the value of this form, in the interval if there is one, and in the range of the form. Where the form
    /// has more than eight terms it is a new atom in the interval.
    #[tactic(auto, unfolding(crate::specs::Numbers::with_computed, crate::specs::Numbers::with_short))]
    pub fn set_computed(&mut self, number: usize, form: &Form<16>, interval: Option<Range>)
        requires number { number < NUMBERS }
        requires room { length self.old.atoms < MOST_ATOMS }
        ensures { self.new ≡ with_computed number form.now interval self.old }
    {
        match form.resize::<8>() {
            Some(form) => {
                let range = computed_range(interval, form.range_of(&self.table()));
                self.set_value(number, form, range);
            }
            None => self.set_fresh(number, or_full(interval)),
        }
    }

    /// The number is what an instruction computes.
    #[tactic(auto, unfolding(crate::specs::Numbers::with_effect))]
    pub fn set_effect(&mut self, number: usize, effect: Effect)
        requires number { number < NUMBERS }
        requires room { length self.old.atoms < MOST_ATOMS }
        ensures { self.new ≡ with_effect number effect self.old }
    {
        match effect {
            Effect::Computed { form, interval } => self.set_computed(number, &form, interval),
            Effect::Fresh { range } => self.set_fresh(number, range),
            Effect::Copied { form, range } => self.set_value(number, form, range),
        }
    }

    /// A register gets what an instruction computes. x0 stays 0.
    #[tactic(auto, unfolding(crate::specs::Numbers::with_result))]
    pub fn set_result(&mut self, rd: Reg, effect: Effect)
        requires { length self.old.atoms < MOST_ATOMS }
        ensures { self.new ≡ with_result rd effect self.old }
    {
        let number = usize::from(rd.number());
        if number != 0 {
            self.set_effect(number, effect);
        }
    }
}
