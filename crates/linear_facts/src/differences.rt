//! Differences of multiples of forms in whole numbers, and their lower bounds.
ghost use Rattle.std.specs.Prelude.{◌≡◌, ℕ, ◌+◌, ◌-◌, ◌*◌, ◌^◌, ◌<◌, ◌≤◌, List, [], ◌∷◌, length};
ghost use Rattle.std.specs.Prelude.{IsTrue, map, is_some};
ghost use Rattle.linear_facts.specs.Forms.{IsForm, value};
ghost use Rattle.linear_facts.specs.Ranges.{AtomTable, AgreesWith};
ghost use Rattle.linear_facts.specs.Sums.{AllAtMost, signed_term, range_of_form};
ghost use Rattle.linear_facts.specs.Differences.{IsBounded, total_of, multiple_term, with_number};
ghost use Rattle.linear_facts.specs.Differences.{with_multiples, base_of, with_product};
ghost use Rattle.linear_facts.specs.Differences.{with_products, have_ranges, AreForms};
ghost use Rattle.linear_facts.specs.Differences.{difference_of, is_positive, is_at_least_of, once};
ghost use Rattle.linear_facts.specs.Differences.{sum_interval as sum_interval_of, is_not_less_of};

use crate::forms::Form;
use crate::ranges::{Atoms, End};
use crate::sums::{
    Interval, OFFSET, Side, WholeTerm, add_term, interval_by_ends, interval_of_terms, met,
    signed_terms, split_terms, sum_of_shares,
};
use arrayvec::ArrayVec;
use std::marker::Model;

/// A number of times what a form stands for.
#[derive(Drop)]
pub struct Multiple<'a> {
    pub factor: u32,
    pub form: &'a Form<8>,
}

impl<'a> Model for Multiple<'a> {
    ghost use Rattle.linear_facts.specs.Differences.{Product};

    ghost Value = { Product };

    ghost view = { λ m. record { factor = m.factor; form = m.form.now } };
}

/// A sum in whole numbers: `plus - minus` and the terms.
#[derive(Drop)]
struct Sum {
    plus: u128,
    minus: u128,
    terms: ArrayVec<WholeTerm, 32>,
}

impl Model for Sum {
    ghost use Rattle.linear_facts.specs.Differences.{WholeSum};

    ghost Value = { WholeSum };

    ghost view = { λ s. record { plus = s.plus; minus = s.minus; terms = s.terms.items } };
}

/// `k` times a term, added or taken away.
fn multiple_term(side: Side, k: u32, term: WholeTerm) -> WholeTerm
    requires plus { term.plus ≤ 2 ^ 32 }
    requires minus { term.minus ≤ 2 ^ 32 }
    ensures term { result ≡ multiple_term side k term }
    ensures plus { result.plus ≤ 2 ^ 64 }
    ensures minus { result.minus ≤ 2 ^ 64 }
{
    let plus = u128::from(k) * term.plus;
    let minus = u128::from(k) * term.minus;
    match side {
        Side::Added => WholeTerm {
            atom: term.atom,
            plus,
            minus,
        },
        Side::Taken => WholeTerm {
            atom: term.atom,
            plus: minus,
            minus: plus,
        },
    }
}

/// Adds `k` times each of these terms, or takes them away.
fn add_multiples(terms: &mut ArrayVec<WholeTerm, 32>, side: Side, k: u32, more: &[WholeTerm])
    requires few { length more.now ≤ 8 }
    requires room { length terms.old.items ≤ 24 }
    requires small { AllAtMost (2 ^ 90) terms.old.items }
    requires small_more { AllAtMost (2 ^ 32) more.now }
    ensures terms { terms.new.items ≡ with_multiples side k terms.old.items more.now }
    ensures length { length terms.new.items ≤ length terms.old.items + 8 }
    ensures bound { (n : ℕ) → AllAtMost n terms.old.items → AllAtMost (n + 2 ^ 67) terms.new.items }
{
    for term in more {
        add_term(terms, multiple_term(side, k, *term));
    }
}

/// The form's multiple of 2^32 by which its range is found, with 2^112 added.
#[tactic(auto, unfolding(crate::specs::Differences::base_of))]
fn base_of_form(form: &Form<8>, atoms: &Atoms) -> u128
    ensures base { result ≡ base_of atoms.now form.now }
    ensures low { 2 ^ 112 ≤ result + 2 ^ 81 }
    ensures high { result ≤ 2 ^ 112 + 2 ^ 81 }
{
    interval_of_terms(form.constant, form.terms.as_slice(), atoms).lo / (1 << 32) * (1 << 32)
}

/// Adds `k` times `plus - minus`, or takes it away.
fn add_number(sum: &mut Sum, side: Side, k: u32, plus: u128, minus: u128)
    requires small_plus { plus ≤ 2 ^ 82 }
    requires small_minus { minus ≤ 2 ^ 82 }
    requires plus { sum.old.plus ≤ 2 ^ 120 }
    requires minus { sum.old.minus ≤ 2 ^ 120 }
    ensures sum { sum.new ≡ with_number side k plus minus sum.old }
    ensures plus { sum.new.plus ≤ sum.old.plus + 2 ^ 114 }
    ensures minus { sum.new.minus ≤ sum.old.minus + 2 ^ 114 }
    ensures plus_by { sum.new.plus ≤ sum.old.plus + k * 2 ^ 82 }
    ensures minus_by { sum.new.minus ≤ sum.old.minus + k * 2 ^ 82 }
{
    let plus = u128::from(k) * plus;
    let minus = u128::from(k) * minus;
    match side {
        Side::Added => {
            sum.plus += plus;
            sum.minus += minus;
        }
        Side::Taken => {
            sum.plus += minus;
            sum.minus += plus;
        }
    }
}

/// Adds a product, or takes it away.
fn add_product(sum: &mut Sum, side: Side, product: &Multiple, atoms: &Atoms)
    requires room { length sum.old.terms ≤ 24 }
    requires small { AllAtMost (2 ^ 90) sum.old.terms }
    requires plus { sum.old.plus ≤ 2 ^ 120 }
    requires minus { sum.old.minus ≤ 2 ^ 120 }
    ensures sum { sum.new ≡ with_product atoms.now side sum.old product.now }
    ensures length { length sum.new.terms ≤ length sum.old.terms + 8 }
    ensures bound { (n : ℕ) → AllAtMost n sum.old.terms → AllAtMost (n + 2 ^ 67) sum.new.terms }
    ensures plus { sum.new.plus ≤ sum.old.plus + 2 ^ 114 }
    ensures minus { sum.new.minus ≤ sum.old.minus + 2 ^ 114 }
    ensures plus_by { sum.new.plus ≤ sum.old.plus + product.now.factor * 2 ^ 82 }
    ensures minus_by { sum.new.minus ≤ sum.old.minus + product.now.factor * 2 ^ 82 }
    ensures form { IsForm 8 product.now.form }
{
    let form = product.form;
    let base = base_of_form(form, atoms);
    let plus = u128::from(form.constant) + OFFSET.saturating_sub(base);
    let minus = base.saturating_sub(OFFSET);
    let signed = signed_terms(form.terms.as_slice());
    add_multiples(&mut sum.terms, side, product.factor, signed.as_slice());
    add_number(sum, side, product.factor, plus, minus);
}

/// Adds products, or takes them away.
fn add_products(sum: &mut Sum, side: Side, products: &[Multiple], atoms: &Atoms)
    requires few { length products.now ≤ 4 }
    requires room { length sum.old.terms + 8 * length products.now ≤ 32 }
    requires small { AllAtMost (2 ^ 80) sum.old.terms }
    requires plus { sum.old.plus ≤ 2 ^ 118 }
    requires minus { sum.old.minus ≤ 2 ^ 118 }
    ensures sum { sum.new ≡ with_products atoms.now side sum.old products.now }
    ensures length { length sum.new.terms ≤ length sum.old.terms + 8 * length products.now }
    ensures bound { (n : ℕ) → AllAtMost n sum.old.terms → AllAtMost (n + 2 ^ 69) sum.new.terms }
    ensures plus { sum.new.plus ≤ sum.old.plus + 2 ^ 116 }
    ensures minus { sum.new.minus ≤ sum.old.minus + 2 ^ 116 }
    ensures forms { AreForms products.now }
{
    for product in products {
        add_product(sum, side, product, atoms);
    }
}

/// Whether the product's form has a range.
fn has_range(product: &Multiple, atoms: &Atoms) -> bool
    ensures { result ≡ is_some (range_of_form atoms.now product.now.form) }
{
    product.form.range_of(atoms).is_some()
}

/// Whether each product's form has a range.
fn have_ranges(products: &[Multiple], atoms: &Atoms) -> bool
    ensures { result ≡ have_ranges atoms.now products.now }
{
    products.iter().all(|product| has_range(product, atoms))
}

/// Whether the lower bound of the sum is at least 0.
#[tactic(auto, unfolding(crate::specs::Differences::is_positive))]
fn is_positive(sum: &Sum, atoms: &Atoms) -> bool
    requires { IsBounded 32 (2 ^ 73) (2 ^ 120) sum.now }
    ensures { result ≡ is_positive atoms.now sum.now }
{
    let gains = sum_of_shares(Side::Added, sum.terms.as_slice(), atoms, End::Lo);
    let losses = sum_of_shares(Side::Taken, sum.terms.as_slice(), atoms, End::Hi);
    sum.minus + losses <= sum.plus + gains
}

/// The difference of a number with products and another one with others.
#[tactic(auto, unfolding(crate::specs::Differences::difference_of))]
fn difference(
    more: u64,
    more_of: &[Multiple],
    less: u64,
    less_of: &[Multiple],
    atoms: &Atoms,
) -> Sum
    requires { length more_of.now + length less_of.now ≤ 4 }
    ensures sum { result ≡ difference_of atoms.now more more_of.now less less_of.now }
    ensures bounded { IsBounded 32 (2 ^ 73) (2 ^ 120) result }
    ensures more_forms { AreForms more_of.now }
    ensures less_forms { AreForms less_of.now }
{
    let mut sum = Sum {
        plus: u128::from(more),
        minus: u128::from(less),
        terms: ArrayVec::new(),
    };
    add_products(&mut sum, Side::Added, more_of, atoms);
    add_products(&mut sum, Side::Taken, less_of, atoms);
    sum
}

/// Whether a number and products are at least another number and products wherever the atoms lie in their
/// ranges, by the lower bound of their difference in whole numbers.
///
/// Each form stands for its sum less the one multiple of 2^32 by which its range was found. Where a form has
/// no range, the answer is no. There are at most four products.
#[tactic(auto, unfolding(crate::specs::Differences::is_at_least_of))]
pub fn is_at_least(
    more: u64,
    more_of: &[Multiple],
    less: u64,
    less_of: &[Multiple],
    atoms: &Atoms,
) -> bool
    requires { length more_of.now + length less_of.now ≤ 4 }
    ensures rule { result ≡ is_at_least_of atoms.now more more_of.now less less_of.now }
    ensures holds { (v : ℕ → ℕ) → AgreesWith atoms.now v → IsTrue result
        → less + total_of v less_of.now ≤ more + total_of v more_of.now }
{
    if !have_ranges(more_of, atoms) {
        return false;
    }
    if !have_ranges(less_of, atoms) {
        return false;
    }
    is_positive(&difference(more, more_of, less, less_of, atoms), atoms)
}

/// The difference of two forms, each taken once.
#[tactic(auto, unfolding(crate::specs::Differences::difference_of))]
fn difference_of_two(form: &Form<8>, other: &Form<8>, atoms: &Atoms) -> Sum
    ensures sum { result ≡ difference_of atoms.now 0 (once form.now) 0 (once other.now) }
    ensures bounded { IsBounded 16 (2 ^ 68) (2 ^ 110) result }
    ensures form { IsForm 8 form.now }
    ensures other { IsForm 8 other.now }
{
    let mut sum = Sum {
        plus: 0,
        minus: 0,
        terms: ArrayVec::new(),
    };
    add_product(&mut sum, Side::Added, &Multiple { factor: 1, form }, atoms);
    add_product(
        &mut sum,
        Side::Taken,
        &Multiple {
            factor: 1,
            form: other,
        },
        atoms,
    );
    sum
}

/// The interval of a sum, met with the one after each split atom is replaced by its two parts.
#[tactic(auto, unfolding(crate::specs::Differences::sum_interval))]
fn sum_interval(sum: &Sum, atoms: &Atoms) -> Interval
    requires { IsBounded 16 (2 ^ 68) (2 ^ 110) sum.now }
    ensures { result ≡ sum_interval_of atoms.now sum.now }
{
    let split = split_terms(sum.terms.as_slice(), atoms);
    let own = interval_by_ends(sum.plus, sum.minus, sum.terms.as_slice(), atoms);
    let other = interval_by_ends(sum.plus, sum.minus, split.as_slice(), atoms);
    met(own, other)
}

/// Whether a form is at least another one wherever the atoms lie in their ranges, by the lower bound of their
/// difference in whole numbers: the interval of that is met with the one after each split atom is replaced by its two
/// parts.
///
/// Each form stands for its sum less the one multiple of 2^32 by which its range was found. Where one of them has no
/// range, the answer is no.
#[tactic(auto, unfolding(crate::specs::Differences::is_not_less_of))]
pub fn is_not_less(form: &Form<8>, other: &Form<8>, atoms: &Atoms) -> bool
    ensures rule { result ≡ is_not_less_of atoms.now form.now other.now }
    ensures holds { (v : ℕ → ℕ) → AgreesWith atoms.now v → IsTrue result
        → value v other.now ≤ value v form.now }
{
    if !have_ranges(&[Multiple { factor: 1, form }], atoms) {
        return false;
    }
    if !have_ranges(
        &[Multiple {
            factor: 1,
            form: other,
        }],
        atoms,
    ) {
        return false;
    }
    OFFSET <= sum_interval(&difference_of_two(form, other, atoms), atoms).lo
}
