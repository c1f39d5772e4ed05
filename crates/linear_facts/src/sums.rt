//! Sums in whole numbers, and the ranges of forms.
//!
//! A coefficient is `plus - minus`, and both ends of an interval are given with 2^112 added, so that all
//! numbers are natural ones.
ghost use Rattle.std.specs.Prelude.{◌≡◌, ℕ, ◌+◌, ◌-◌, ◌*◌, ◌/◌, ◌%◌, ◌^◌, ◌<◌, ◌≤◌, List, [], ◌∷◌};
ghost use Rattle.std.specs.Prelude.{map, length, position, is_some, ◌==◌, IfSome};
ghost use Rattle.std.specs.List.{list_any};
ghost use Rattle.linear_facts.specs.Forms.{value, RisesFrom};
ghost use Rattle.linear_facts.specs.Ranges.{AgreesWith, IsIn, split_at};
ghost use Rattle.linear_facts.specs.Sums.{AllAtMost, IsClose, signed_term, joined, with_term};
ghost use Rattle.linear_facts.specs.Sums.{with_parts, with_split, nonzero_count, share, shares};
ghost use Rattle.linear_facts.specs.Sums.{ends, interval_of, met_or_own, form_interval};
ghost use Rattle.linear_facts.specs.Sums.{range_within, range_of_form};

use crate::forms::{Form, Term};
use crate::ranges::{Atoms, End, Range};
use arrayvec::ArrayVec;

/// A side of 0: what is added to a sum, or taken away from it.
#[derive(Clone, Copy, PartialEq, Eq)]
pub(crate) enum Side {
    Added,
    Taken,
}

/// A coefficient, `plus - minus`, times an atom.
#[derive(Clone, Copy, Default, PartialEq, Eq)]
pub(crate) struct WholeTerm {
    pub(crate) atom: u16,
    pub(crate) plus: u128,
    pub(crate) minus: u128,
}

/// The whole numbers from `lo` to `hi`, both with 2^112 added.
#[derive(Clone, Copy, PartialEq, Eq)]
pub(crate) struct Interval {
    pub(crate) lo: u128,
    pub(crate) hi: u128,
}

/// 2^112.
pub(crate) const OFFSET: u128 = 0x1_0000_0000_0000_0000_0000_0000_0000;

impl From<Term> for WholeTerm {
    ghost from_gives = { λ t u. u ≡ signed_term t };

    /// The term with its coefficient as a signed number of 32 bits.
    #[tactic(auto, unfolding(crate::specs::Sums::signed_term))]
    fn from(term: Term) -> WholeTerm {
        let coefficient = u128::from(term.coefficient);
        if coefficient < 1 << 31 {
            WholeTerm {
                atom: term.atom,
                plus: coefficient,
                minus: 0,
            }
        } else {
            WholeTerm {
                atom: term.atom,
                plus: 0,
                minus: (1 << 32) - coefficient,
            }
        }
    }
}

impl WholeTerm {
    /// How far the coefficient lies on this side of 0.
    fn share(self, side: Side) -> u128
        ensures { result ≡ share side self }
    {
        match side {
            Side::Added => self.plus.saturating_sub(self.minus),
            Side::Taken => self.minus.saturating_sub(self.plus),
        }
    }
}

/// The terms with their coefficients as signed numbers of 32 bits.
pub(crate) fn signed_terms(terms: &[Term]) -> ArrayVec<WholeTerm, 8>
    requires { length terms.now ≤ 8 }
    ensures terms { result.items ≡ map signed_term terms.now }
    ensures small { AllAtMost (2 ^ 32) result.items }
{
    let mut signed = ArrayVec::new();
    for term in terms {
        signed.push(WholeTerm::from(*term));
    }
    signed
}

/// The place of the first term of this atom.
fn place_of(terms: &[WholeTerm], atom: u16) -> Option<usize>
    ensures { result ≡ position (λ t. t.atom == atom) terms.now }
{
    terms.iter().position(|term| term.atom == atom)
}

/// Adds a term, to the one of its atom where there is one.
pub(crate) fn add_term(terms: &mut ArrayVec<WholeTerm, 32>, term: WholeTerm)
    requires room { length terms.old.items < 32 }
    requires small { AllAtMost (2 ^ 100) terms.old.items }
    requires plus { term.plus ≤ 2 ^ 100 }
    requires minus { term.minus ≤ 2 ^ 100 }
    ensures { terms.new.items ≡ with_term terms.old.items term }
{
    match place_of(terms.as_slice(), term.atom) {
        Some(i) => {
            let other = terms.as_slice()[i];
            terms.as_mut_slice()[i] = WholeTerm {
                atom: other.atom,
                plus: other.plus + term.plus,
                minus: other.minus + term.minus,
            };
        }
        None => terms.push(term),
    }
}

/// How many terms are not 0.
fn nonzero_terms(terms: &[WholeTerm]) -> usize
    ensures { result ≡ nonzero_count terms.now }
{
    terms.iter().filter(|term| term.plus != term.minus).count()
}

/// An end of an atom's range.
fn end_of_range(atoms: &Atoms, atom: u16, end: End) -> u128
    ensures value { result ≡ ends atoms.now end atom }
    ensures fits { result < 2 ^ 32 }
{
    u128::from(atoms.range(atom).end(end))
}

/// What the terms with coefficients on this side of 0 come to, without their sign, where each atom is at
/// this end of its range.
pub(crate) fn sum_of_shares(side: Side, terms: &[WholeTerm], atoms: &Atoms, end: End) -> u128
    requires few { length terms.now ≤ 32 }
    requires small { AllAtMost (2 ^ 73) terms.now }
    ensures sum { result ≡ shares side (ends atoms.now end) terms.now }
    ensures bound { result ≤ 2 ^ 110 }
    ensures close { AllAtMost (2 ^ 40) terms.now → result ≤ 2 ^ 78 }
{
    let mut sum = 0;
    for term in terms {
        sum += term.share(side) * end_of_range(atoms, term.atom, end);
    }
    sum
}

/// The interval of `plus - minus` and the terms, by interval arithmetic.
#[tactic(auto, unfolding(crate::specs::Sums::interval_of))]
pub(crate) fn interval_by_ends(
    plus: u128,
    minus: u128,
    terms: &[WholeTerm],
    atoms: &Atoms,
) -> Interval
    requires few { length terms.now ≤ 32 }
    requires small { AllAtMost (2 ^ 73) terms.now }
    requires plus { plus ≤ 2 ^ 110 }
    requires minus { minus ≤ 2 ^ 110 }
    ensures interval { result ≡ interval_of atoms.now plus minus terms.now }
    ensures close { AllAtMost (2 ^ 40) terms.now → plus ≤ 2 ^ 40 → minus ≡ 0 → IsClose result }
{
    let low_gains = sum_of_shares(Side::Added, terms, atoms, End::Lo);
    let high_gains = sum_of_shares(Side::Added, terms, atoms, End::Hi);
    let low_losses = sum_of_shares(Side::Taken, terms, atoms, End::Lo);
    let high_losses = sum_of_shares(Side::Taken, terms, atoms, End::Hi);
    Interval {
        lo: OFFSET + plus + low_gains - (minus + high_losses),
        hi: OFFSET + plus + high_gains - (minus + low_losses),
    }
}

/// What lies in both intervals, or the first where they don't meet.
#[tactic(auto, unfolding(crate::specs::Sums::met_or_own))]
pub(crate) fn met(own: Interval, other: Interval) -> Interval
    ensures met { result ≡ met_or_own own other }
    ensures close { IsClose own → IsClose other → IsClose result }
{
    let lo = own.lo.max(other.lo);
    let hi = own.hi.min(other.hi);
    if lo <= hi { Interval { lo, hi } } else { own }
}

/// The interval less one multiple of 2^32, where that leaves numbers of 32 bits.
#[tactic(auto, unfolding(crate::specs::Sums::range_within))]
fn range_in(interval: Interval) -> Option<Range>
    ensures { result ≡ range_within interval }
{
    let modulus = 1u128 << 32;
    if interval.lo / modulus == interval.hi / modulus {
        Some(Range {
            lo: (interval.lo % modulus) as u32,
            hi: (interval.hi % modulus) as u32,
        })
    } else {
        None
    }
}

/// Adds the two parts of a term whose atom is split, else the term.
fn add_parts(terms: &mut ArrayVec<WholeTerm, 32>, term: WholeTerm, atoms: &Atoms)
    requires room { length terms.old.items ≤ 30 }
    requires small { AllAtMost (2 ^ 80) terms.old.items }
    requires plus { term.plus ≤ 2 ^ 80 }
    requires minus { term.minus ≤ 2 ^ 80 }
    ensures { terms.new.items ≡ with_parts (split_at atoms.now term.atom) terms.old.items term }
{
    match atoms.split(term.atom) {
        Some(split) => {
            let first = WholeTerm {
                atom: split.first,
                plus: term.plus,
                minus: term.minus,
            };
            let second = WholeTerm {
                atom: split.second,
                plus: term.plus,
                minus: term.minus,
            };
            add_term(terms, first);
            add_term(terms, second);
        }
        None => add_term(terms, term),
    }
}

/// The terms with each split atom replaced by the sum of its two parts, all at once.
pub(crate) fn split_terms(terms: &[WholeTerm], atoms: &Atoms) -> ArrayVec<WholeTerm, 32>
    requires few { length terms.now ≤ 16 }
    requires small { AllAtMost (2 ^ 68) terms.now }
    ensures terms { result.items ≡ with_split atoms.now [] terms.now }
    ensures small { AllAtMost (2 ^ 73) result.items }
    ensures close { AllAtMost (2 ^ 32) terms.now → AllAtMost (2 ^ 40) result.items }
    ensures few { length result.items ≤ 32 }
{
    let mut replaced = ArrayVec::new();
    for term in terms {
        add_parts(&mut replaced, *term, atoms);
    }
    replaced
}

impl Form<8> {
    /// The range in which the form's value lies wherever the atoms lie in theirs, if it is known.
    ///
    /// The form's sum in whole numbers, with coefficients as signed numbers of 32 bits, lies in an interval.
    /// That is met with the interval of the sum in which each split atom is replaced by its two parts, where
    /// that has at most eight terms. Where the interval less one multiple of 2^32 holds numbers of 32 bits
    /// alone, that is the range.
    #[tactic(auto, unfolding(crate::specs::Sums::range_of_form, crate::specs::Sums::form_interval))]
    pub fn range_of(&self, atoms: &Atoms) -> Option<Range>
        ensures rule { result ≡ range_of_form atoms.now self.now }
        ensures holds { (v : ℕ → ℕ) → AgreesWith atoms.now v
            → IfSome result (λ r. IsIn r (value v self.now)) }
    {
        range_in(interval_of_terms(self.constant, self.terms.as_slice(), atoms))
    }
}

/// Whether one of the terms' atoms is split.
fn some_split(terms: &[Term], atoms: &Atoms) -> bool
    ensures { result ≡ list_any (λ t. is_some (split_at atoms.now t.atom)) terms.now }
{
    terms.iter().any(|term| atoms.split(term.atom).is_some())
}

/// An end of a sum's interval with one more term: the end of its atom's range that counts is `up`, or
/// `down` where the coefficient is negative.
fn end_with_term(sum: u128, term: Term, up: u32, down: u32) -> u128
    requires low { 2 ^ 64 ≤ sum }
    requires high { sum ≤ 2 ^ 113 }
    ensures sum { let t = signed_term term in
        result + (t.minus - t.plus) * down ≡ sum + (t.plus - t.minus) * up }
    ensures low { sum ≤ result + 2 ^ 64 }
    ensures high { result ≤ sum + 2 ^ 64 }
{
    let coefficient = u64::from(term.coefficient);
    if term.coefficient < 1 << 31 {
        sum + u128::from(coefficient * u64::from(up))
    } else {
        sum - u128::from(((1 << 32) - coefficient) * u64::from(down))
    }
}

/// The interval of a form's sum with its own terms alone.
#[tactic(auto, unfolding(crate::specs::Sums::interval_of))]
fn own_interval(constant: u32, terms: &[Term], atoms: &Atoms) -> Interval
    requires { length terms.now ≤ 8 }
    ensures interval { result ≡ interval_of atoms.now constant 0 (map signed_term terms.now) }
    ensures close { IsClose result }
{
    let mut lo = OFFSET + u128::from(constant);
    let mut hi = lo;
    for term in terms {
        let range = atoms.range(term.atom);
        lo = end_with_term(lo, *term, range.lo, range.hi);
        hi = end_with_term(hi, *term, range.hi, range.lo);
    }
    Interval { lo, hi }
}

/// The interval of a form's sum, met with the one after each split atom is replaced by its two parts, by
/// both lists of terms.
fn interval_of_both(constant: u32, terms: &[Term], atoms: &Atoms) -> Interval
    requires { length terms.now ≤ 8 }
    ensures interval { result ≡
        form_interval atoms.now record { constant = constant; terms = terms.now } }
    ensures close { IsClose result }
{
    let constant = u128::from(constant);
    let signed = signed_terms(terms);
    let split = split_terms(signed.as_slice(), atoms);
    let own = interval_by_ends(constant, 0, signed.as_slice(), atoms);
    if nonzero_terms(split.as_slice()) <= 8 {
        met(own, interval_by_ends(constant, 0, split.as_slice(), atoms))
    } else {
        own
    }
}

/// The interval of a form's sum, met with the one after each split atom is replaced by its two parts.
///
/// Where no atom is split, both are the same one.
pub(crate) fn interval_of_terms(constant: u32, terms: &[Term], atoms: &Atoms) -> Interval
    requires few { length terms.now ≤ 8 }
    requires rises { RisesFrom 0 terms.now }
    ensures interval { result ≡
        form_interval atoms.now record { constant = constant; terms = terms.now } }
    ensures close { IsClose result }
{
    if some_split(terms, atoms) {
        interval_of_both(constant, terms, atoms)
    } else {
        own_interval(constant, terms, atoms)
    }
}
