//! The numbers of registers and vl where a block of a certificate begins, and where a run does.
ghost use Rattle.std.specs.Prelude.{◌≡◌, ◌<◌, ◌≤◌, ◌+◌, ◌++◌, ◌∷◌, [], length, map, vec_capacity};
ghost use Rattle.std.specs.Prelude.{ℕ, IfOk, Some, None};
ghost use Rattle.cert_note.specs.declared.values.TheConstants.{PARAMETER_ATOMS_END};
ghost use Rattle.scalar_core.specs.declared.entry.EntryValue.TheVariants.{Passed};
ghost use Rattle.std.specs.List.{range_with_len, slice_get, AllByRecursion};
ghost use Rattle.linear_facts.specs.Forms.{IsForm};
ghost use Rattle.linear_facts.specs.Sums.{range_of_form};
ghost use Rattle.abs_domain.specs.Values.{computed_range as computed_range_of};
ghost use Rattle.std.specs.Option.{option_and_then, option_map};
ghost use Rattle.abs_domain.specs.Starts.{fact_for, interval_of, form_or_atom};
ghost use Rattle.abs_domain.specs.Starts.{stated_range as stated_range_of};
ghost use Rattle.abs_domain.specs.Starts.{equality_form as equality_form_of};
ghost use Rattle.abs_domain.specs.Starts.{stated_form as stated_form_of};
ghost use Rattle.abs_domain.specs.Starts.{passed_range as passed_range_of};
ghost use Rattle.abs_domain.specs.Starts.{passed_value as passed_value_of};
ghost use Rattle.abs_domain.specs.Starts.{start_value as start_value_of};
ghost use Rattle.abs_domain.specs.Starts.{entry_form as entry_form_of};
ghost use Rattle.abs_domain.specs.Starts.{HasForm, start_atoms as start_atoms_of};
ghost use Rattle.abs_domain.specs.Starts.{start_numbers as start_numbers_of};
ghost use Rattle.abs_domain.specs.Starts.{entry_numbers as entry_numbers_of};
ghost use Rattle.abs_domain.specs.Numbers.{plain};
ghost use Rattle.abs_domain.specs.Orders.{with_order, with_orders};

use crate::effects::just;
use crate::numbers::{MOST_ATOMS, NUMBERS, Numbers};
use crate::values::computed_range;
use cert_note::{Equality, OrderFact, PARAMETER_ATOMS, RegisterFact};
use linear_facts::{Atom, Atoms, Form, Range, Split, Term};
use region_mem::{Param, Parameters};
use scalar_core::{EntryValue, entry_value};
use std::alloc::{AllocError, Allocator};

/// The fact on a register or on vl (32), if there is one.
fn fact_on(facts: &[RegisterFact], number: u8) -> Option<&RegisterFact>
    ensures { option_map (λ fact. fact.now) result ≡ fact_for facts.now number }
{
    facts.iter().find(|fact| fact.number == number)
}

/// The interval of the fact on a register or on vl (32), if there is one.
fn fact_range(facts: &[RegisterFact], number: u8) -> Range
    ensures { result ≡ interval_of (fact_for facts.now number) }
{
    match fact_on(facts, number) {
        None => Range::FULL,
        Some(fact) => Range {
            lo: fact.low,
            hi: fact.high,
        },
    }
}

/// The interval that is stated of a register (0 to 31) or of vl (32).
#[tactic(auto, unfolding(crate::specs::Starts::stated_range))]
fn stated_range(facts: &[RegisterFact], number: u8) -> Range
    ensures { result ≡ stated_range_of facts.now number }
{
    if number == 0 {
        just(0)
    } else {
        fact_range(facts, number)
    }
}

/// The sum of an equality as a form.
fn equality_form(equality: &Equality) -> Form<8>
    requires { IsForm 8 (equality_form_of equality.now) }
    ensures { result ≡ equality_form_of equality.now }
{
    let mut form = Form::number(equality.constant);
    for term in equality.terms.as_slice() {
        form = form.with_term(Term {
            atom: u16::from(term.atom),
            coefficient: term.coefficient,
        });
    }
    form
}

/// The form of a fact's sum, or the atom of this number where it states none.
fn form_of_fact(fact: &RegisterFact, number: u8) -> Form<8>
    requires { HasForm fact.now }
    ensures { result ≡ form_or_atom number fact.now.equality }
{
    match &fact.equality {
        None => Form::atom(u16::from(number)),
        Some(equality) => equality_form(equality),
    }
}

/// The form of the fact on a register or on vl (32), or its atom.
fn fact_form(facts: &[RegisterFact], number: u8) -> Form<8>
    requires { AllByRecursion HasForm facts.now }
    ensures { result ≡ form_or_atom number
        (option_and_then (λ fact. fact.equality) (fact_for facts.now number)) }
{
    match fact_on(facts, number) {
        None => Form::atom(u16::from(number)),
        Some(fact) => form_of_fact(fact, number),
    }
}

/// The form that is stated of a register (0 to 31) or of vl (32).
#[tactic(auto, unfolding(crate::specs::Starts::stated_form))]
fn stated_form(facts: &[RegisterFact], number: u8) -> Form<8>
    requires { AllByRecursion HasForm facts.now }
    ensures { result ≡ stated_form_of facts.now number }
{
    if number == 0 {
        Form::number(0)
    } else {
        fact_form(facts, number)
    }
}

/// What is known of the number that is passed for a parameter.
#[tactic(auto, unfolding(crate::specs::Starts::passed_range))]
fn passed_range(param: Param) -> Range
    ensures { result ≡ passed_range_of (Some param) }
{
    match param {
        Param::Scalar { lo, hi } => Range { lo, hi },
        Param::None | Param::Buffer { mode: _, size: _ } => Range::FULL,
    }
}

/// One atom more, which is not split.
fn push_plain<A: Allocator>(atoms: &mut Vec<Atom, A>, range: Range)
    requires few { length atoms.old.items < MOST_ATOMS }
    requires room { MOST_ATOMS ≤ vec_capacity atoms.old }
    ensures items { atoms.new.items ≡ atoms.old.items ++ plain range ∷ [] }
    ensures count { length atoms.new.items ≡ length atoms.old.items + 1 }
    ensures room { MOST_ATOMS ≤ vec_capacity atoms.new }
{
    atoms.push(Atom { range, split: None }).unwrap();
}

/// The atoms of registers and vl, and those of the numbers passed, in place of what was there.
#[tactic(auto, unfolding(crate::specs::Starts::start_atoms))]
fn put_atoms<A: Allocator>(
    atoms: &mut Vec<Atom, A>,
    parameters: &Parameters,
    facts: &[RegisterFact],
)
    requires { MOST_ATOMS ≤ vec_capacity atoms.old }
    ensures items { atoms.new.items ≡ start_atoms_of parameters.now facts.now }
    ensures room { MOST_ATOMS ≤ vec_capacity atoms.new }
{
    atoms.clear();
    for number in 0..NUMBERS as u8 {
        push_plain(atoms, stated_range(facts, number));
    }
    for place in 0..8_usize {
        push_plain(atoms, passed_range(parameters.param(place)));
    }
}

/// The greater register's atom is split into the lesser one's and a new one, which is what lies between them; not where its
/// range lies below the lesser one's.
#[tactic(auto, unfolding(crate::specs::Orders::with_order, crate::specs::Numbers::with_split))]
fn add_order<A: Allocator>(atoms: &mut Vec<Atom, A>, order: OrderFact)
    requires greater { order.greater < length atoms.old.items }
    requires few { length atoms.old.items < MOST_ATOMS }
    requires room { MOST_ATOMS ≤ vec_capacity atoms.old }
    ensures atoms { atoms.new.items ≡ with_order atoms.old.items order }
    ensures count { length atoms.new.items ≤ length atoms.old.items + 1 }
    ensures grows { length atoms.old.items ≤ length atoms.new.items }
    ensures room { MOST_ATOMS ≤ vec_capacity atoms.new }
{
    let table = Atoms {
        atoms: atoms.as_slice(),
        first: None,
        second: None,
    };
    let greater = table.range(u16::from(order.greater));
    let lesser = table.range(u16::from(order.lesser));
    if lesser.lo <= greater.hi {
        let second = atoms.len() as u16;
        let range = Range {
            lo: greater.lo.saturating_sub(lesser.hi),
            hi: greater.hi - lesser.lo,
        };
        atoms.push(Atom { range, split: None }).unwrap();
        atoms[usize::from(order.greater)].split = Some(Split {
            first: u16::from(order.lesser),
            second,
        });
    }
}

/// The atoms where all orders hold.
fn add_orders<A: Allocator>(atoms: &mut Vec<Atom, A>, orders: &[OrderFact])
    requires greater { AllByRecursion (λ order. order.greater < NUMBERS) orders.now }
    requires many { NUMBERS ≤ length atoms.old.items }
    requires few { length atoms.old.items + length orders.now ≤ 73 }
    requires room { MOST_ATOMS ≤ vec_capacity atoms.old }
    ensures atoms { atoms.new.items ≡ with_orders atoms.old.items orders.now }
    ensures count { length atoms.new.items ≤ length atoms.old.items + length orders.now }
    ensures room { MOST_ATOMS ≤ vec_capacity atoms.new }
{
    for order in orders {
        add_order(atoms, *order);
    }
}

/// The forms of registers and vl where these facts hold, in place of what was there.
fn put_forms<A: Allocator>(forms: &mut Vec<Form<8>, A>, facts: &[RegisterFact])
    requires form { AllByRecursion HasForm facts.now }
    requires count { length forms.old.items ≡ NUMBERS }
    ensures { forms.new.items ≡ map (stated_form_of facts.now) (range_with_len 0 NUMBERS) }
{
    for number in 0..NUMBERS {
        forms[number] = stated_form(facts, number as u8);
    }
}

/// The ranges of registers and vl where these facts hold.
fn start_ranges(atoms: &Atoms<'_>, forms: &[Form<8>], facts: &[RegisterFact]) -> [Range; NUMBERS]
    requires { forms.now ≡ map (stated_form_of facts.now) (range_with_len 0 NUMBERS) }
    ensures { result ≡ map
        (λ i. computed_range_of (Some (stated_range_of facts.now i))
        (range_of_form atoms.now (stated_form_of facts.now i)))
        (range_with_len 0 NUMBERS) }
{
    let mut ranges = [Range::FULL; NUMBERS];
    for number in 0..NUMBERS {
        ranges[number] = computed_range(
            Some(stated_range(facts, number as u8)),
            forms[number].range_of(atoms),
        );
    }
    ranges
}

/// What is passed at a place: a buffer's address is known.
#[tactic(auto, unfolding(crate::specs::Starts::passed_value))]
fn passed_value(parameters: &Parameters, place: usize) -> EntryValue
    requires { place < 8 }
    ensures value { result ≡ passed_value_of parameters.now place
        (slice_get parameters.now place) }
    ensures place { (q : ℕ) → result ≡ Passed q → q < 8 }
{
    match parameters.param(place) {
        Param::None => EntryValue::Number(0),
        Param::Scalar { lo: _, hi: _ } => EntryValue::Passed(place),
        Param::Buffer { mode: _, size: _ } => {
            EntryValue::Number(parameters.address(place).unwrap_or(0))
        }
    }
}

/// What a register holds at the start of a run with these parameters: of what is passed, buffers' addresses are known.
#[tactic(auto, unfolding(crate::specs::Starts::start_value))]
pub fn start_value(parameters: &Parameters, register: u8) -> EntryValue
    ensures value { result ≡ start_value_of parameters.now register }
    ensures place { (q : ℕ) → result ≡ Passed q → q < 8 }
{
    match entry_value(register) {
        EntryValue::Number(number) => EntryValue::Number(number),
        EntryValue::Passed(place) => passed_value(parameters, place),
    }
}

/// What a register (0 to 31) or vl (32) holds at the start of a run.
#[tactic(auto, unfolding(crate::specs::Starts::entry_form))]
fn entry_form(parameters: &Parameters, number: u8) -> Form<8>
    ensures { result ≡ entry_form_of parameters.now number }
{
    match start_value(parameters, number) {
        EntryValue::Number(number) => Form::number(number),
        EntryValue::Passed(place) => Form::atom(u16::from(PARAMETER_ATOMS) + place as u16),
    }
}

/// The forms of registers and vl at the start of a run.
fn entry_forms<A: Allocator>(
    alloc: A,
    parameters: &Parameters,
) -> Result<Vec<Form<8>, A>, AllocError>
    ensures { IfOk result (λ forms.
        forms.items ≡ map (entry_form_of parameters.now) (range_with_len 0 NUMBERS)) }
{
    let mut forms = Vec::with_capacity(alloc, NUMBERS)?;
    for number in 0..NUMBERS as u8 {
        forms.push(entry_form(parameters, number))?;
    }
    Ok(forms)
}

/// The ranges of these forms.
fn form_ranges(atoms: &Atoms<'_>, forms: &[Form<8>]) -> [Range; NUMBERS]
    requires { length forms.now ≡ NUMBERS }
    ensures { result
        ≡ map (λ form. computed_range_of None (range_of_form atoms.now form)) forms.now }
{
    let mut ranges = [Range::FULL; NUMBERS];
    for (place, form) in forms.iter().enumerate() {
        ranges[place] = computed_range(None, form.range_of(atoms));
    }
    ranges
}

impl<A: Allocator> Numbers<A> {
    /// The numbers of registers and vl where these facts and orders hold, in place of what was known. It takes no memory.
    #[tactic(auto, unfolding(crate::specs::Starts::start_numbers, crate::specs::Starts::numbers_by))]
    pub fn start(&mut self, parameters: &Parameters, facts: &[RegisterFact], orders: &[OrderFact])
        requires forms { AllByRecursion HasForm facts.now }
        requires greater { AllByRecursion (λ order. order.greater < NUMBERS) orders.now }
        requires few { length orders.now ≤ 32 }
        ensures numbers { self.new ≡ start_numbers_of parameters.now facts.now orders.now }
        ensures few { length self.new.atoms ≤ 73 }
    {
        put_atoms(&mut self.atoms, parameters, facts);
        add_orders(&mut self.atoms, orders);
        put_forms(&mut self.forms, facts);
        let table = Atoms {
            atoms: self.atoms.as_slice(),
            first: None,
            second: None,
        };
        let ranges = start_ranges(&table, self.forms.as_slice(), facts);
        self.ranges = ranges;
    }
}

/// The numbers of registers and vl at the start of a run.
#[tactic(auto, unfolding(crate::specs::Starts::entry_numbers, crate::specs::Starts::numbers_by))]
pub fn entry_numbers<A: Allocator>(
    alloc: A,
    parameters: &Parameters,
) -> Result<Numbers<A>, AllocError>
where
    A: Copy,
    ensures numbers { IfOk result (λ numbers. numbers ≡ entry_numbers_of parameters.now) }
    ensures few { IfOk result (λ numbers. length numbers.atoms ≡ PARAMETER_ATOMS_END) }
{
    let mut atoms = Vec::with_capacity(alloc, MOST_ATOMS)?;
    put_atoms(&mut atoms, parameters, &[]);
    let forms = entry_forms(alloc, parameters)?;
    let table = Atoms {
        atoms: atoms.as_slice(),
        first: None,
        second: None,
    };
    let ranges = form_ranges(&table, forms.as_slice());
    Ok(Numbers::by(atoms, forms, ranges))
}
