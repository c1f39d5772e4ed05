//! Forms: addition, multiples and equality.
ghost use Rattle.std.specs.Prelude.{◌≡◌, ℕ, ◌+◌, ◌*◌, ◌%◌, ◌^◌, ◌<◌, ◌≤◌, ◌↔◌, List, [], ◌∷◌};
ghost use Rattle.std.specs.Prelude.{length, IsTrue, IfSome, IfNone, IsSome, OnSome, Some};
ghost use Rattle.std.specs.Prelude.{MatchOption, ◌++◌};
ghost use Rattle.arrayvec.specs.ArrayVec.{array_vec_len};
ghost use Rattle.linear_facts.specs.Laws.{AreBelow};
ghost use Rattle.linear_facts.specs.Forms.{Linear, value, IsForm, term_or_none, merged};
ghost use Rattle.linear_facts.specs.Forms.{scaled_terms, sum_of, scaled, within, atom_form};
ghost use Rattle.linear_facts.specs.Forms.{form_at, with_replaced, substituted};

use arrayvec::ArrayVec;
use std::marker::Model;

/// A coefficient times an atom.
#[derive(Clone, Copy, Default, PartialEq, Eq)]
pub struct Term {
    /// Which unknown number it is.
    pub atom: u16,
    /// What the atom is multiplied by, modulo 2^32.
    pub coefficient: u32,
}

/// A constant and at most `N` terms, by rising atom, none with the coefficient 0.
///
/// Two forms that have the same value whatever the atoms are have one spelling.
#[derive(Drop)]
pub struct Form<const N: usize> {
    pub constant: u32,
    pub terms: ArrayVec<Term, N>,
}

impl<const N: usize> Model for Form<N> {
    ghost use Rattle.linear_facts.specs.Forms.{Linear, IsForm};

    ghost Value = { Linear };

    ghost view = { λ f. record { constant = f.constant; terms = f.terms.items } };

    ghost invariant = { λ f. IsForm N record { constant = f.constant; terms = f.terms.items } };
}

/// Appends a term. `None` where there is no room.
fn push<const R: usize>(terms: &mut ArrayVec<Term, R>, term: Term) -> Option<()>
    ensures pushed { OnSome result (terms.new.items ≡ terms.old.items ++ term ∷ []) }
    ensures room { OnSome result (length terms.new.items ≤ R) }
    ensures full { IfNone result (R < length (terms.old.items ++ term ∷ [])) }
{
    terms.try_push(term).ok()
}

/// Appends the term, unless its coefficient is 0. `None` where there is no room.
fn push_unless_zero<const R: usize>(
    terms: &mut ArrayVec<Term, R>,
    atom: u16,
    coefficient: u32,
) -> Option<()>
    ensures pushed { OnSome result
        (terms.new.items ≡ terms.old.items ++ term_or_none atom coefficient) }
    ensures room { OnSome result (length terms.old.items ≤ R → length terms.new.items ≤ R) }
    ensures full { IfNone result (R < length (terms.old.items ++ term_or_none atom coefficient)) }
{
    if coefficient == 0 {
        Some(())
    } else {
        push(terms, Term { atom, coefficient })
    }
}

/// Appends all these terms. `None` where there is no room.
fn extend<const R: usize>(terms: &mut ArrayVec<Term, R>, more: &[Term]) -> Option<()>
    ensures extended { OnSome result (terms.new.items ≡ terms.old.items ++ more.now) }
    ensures room { OnSome result (length terms.new.items ≤ R) }
    ensures full { IfNone result (R < length (terms.old.items ++ more.now)) }
{
    terms.try_extend_from_slice(more).ok()
}

/// The terms of both, by rising atom: the coefficients of one atom are added, and a sum of 0 is left out.
fn merge<const R: usize>(a: &[Term], b: &[Term]) -> Option<ArrayVec<Term, R>>
    ensures terms { MatchOption result (R < length (merged a.now b.now))
        (λ terms. terms.items ≡ merged a.now b.now) }
    ensures room { IfSome result (λ terms. length terms.items ≤ R) }
{
    let mut terms = ArrayVec::new();
    let mut i = 0;
    let mut j = 0;
    'heads: while i < a.len() && j < b.len() {
        let x = a[i];
        let y = b[j];
        if x.atom < y.atom {
            push(&mut terms, x)?;
            i += 1;
        } else if y.atom < x.atom {
            push(&mut terms, y)?;
            j += 1;
        } else {
            push_unless_zero(
                &mut terms,
                x.atom,
                x.coefficient.wrapping_add(y.coefficient),
            )?;
            i += 1;
            j += 1;
        }
    }
    extend(&mut terms, &a[i..])?;
    extend(&mut terms, &b[j..])?;
    Some(terms)
}

/// `k` times the terms, without those that are 0.
fn scale_terms<const R: usize>(k: u32, terms: &[Term]) -> Option<ArrayVec<Term, R>>
    ensures terms { MatchOption result (R < length (scaled_terms k terms.now))
        (λ scaled. scaled.items ≡ scaled_terms k terms.now) }
    ensures room { IfSome result (λ scaled. length scaled.items ≤ R) }
{
    let mut scaled = ArrayVec::new();
    for term in terms {
        push_unless_zero(&mut scaled, term.atom, k.wrapping_mul(term.coefficient))?;
    }
    Some(scaled)
}

impl<const N: usize> Form<N> {
    /// The form that is this number.
    pub fn number(constant: u32) -> Self
        ensures { result ≡ record { constant = constant; terms = [] } }
    {
        Form {
            constant,
            terms: ArrayVec::new(),
        }
    }

    /// The form that is this atom. It needs room for one term.
    pub fn atom(atom: u16) -> Self
        requires { 1 ≤ N }
        ensures { result ≡ atom_form atom }
    {
        let mut terms = ArrayVec::new();
        terms.push(Term {
            atom,
            coefficient: 1,
        });
        Form { constant: 0, terms }
    }

    /// The terms, by rising atom, none with the coefficient 0.
    pub fn terms(&self) -> &[Term]
        ensures terms { result.now ≡ self.now.terms }
        ensures form { IsForm N self.now }
    {
        self.terms.as_slice()
    }

    /// The same form with room for `R` terms, or `None` where it has more.
    pub fn resize<const R: usize>(&self) -> Option<Form<R>>
        ensures { result ≡ within R self.now }
    {
        let mut terms = ArrayVec::new();
        extend(&mut terms, self.terms.as_slice())?;
        Some(Form {
            constant: self.constant,
            terms,
        })
    }

    /// The sum of two forms, or `None` where it has more than `R` terms.
    pub fn add<const M: usize, const R: usize>(&self, other: &Form<M>) -> Option<Form<R>>
        ensures sum { result ≡ within R (sum_of self.now other.now) }
        ensures fits { N + M ≤ R → IsSome result }
        ensures meaning { (v : ℕ → ℕ) → IfSome result
            (λ f. value v f ≡ (value v self.now + value v other.now) % 2 ^ 32) }
    {
        Some(Form {
            constant: self.constant.wrapping_add(other.constant),
            terms: merge(self.terms.as_slice(), other.terms.as_slice())?,
        })
    }

    /// `k` times the form, or `None` where it has more than `R` terms.
    pub fn scale<const R: usize>(&self, k: u32) -> Option<Form<R>>
        ensures product { result ≡ within R (scaled k self.now) }
        ensures fits { N ≤ R → IsSome result }
        ensures meaning { (v : ℕ → ℕ) → IfSome result
            (λ f. value v f ≡ k * value v self.now % 2 ^ 32) }
    {
        Some(Form {
            constant: k.wrapping_mul(self.constant),
            terms: scale_terms(k, self.terms.as_slice())?,
        })
    }

    /// The form with one more term, of an atom above all that it has.
    pub fn with_term(self, term: Term) -> Self
        requires room { length self.terms < N }
        requires above { AreBelow term.atom self.terms }
        requires coefficient { 0 < term.coefficient }
        ensures { result ≡ record {
          constant = self.entry.constant;
          terms = self.entry.terms ++ term ∷ [];
        } }
    {
        let mut terms = self.terms;
        terms.push(term);
        Form {
            constant: self.constant,
            terms,
        }
    }

    /// Whether the two forms are equal: in their constants, and in each atom's coefficient.
    pub fn same<const M: usize>(&self, other: &Form<M>) -> bool
        ensures { IsTrue result ↔ (self.now ≡ other.now) }
    {
        self.constant == other.constant && self.terms.as_slice() == other.terms.as_slice()
    }
}

impl Form<8> {
    /// The sum of two forms, for which there is always room.
    pub fn sum(&self, other: &Form<8>) -> Form<16>
        ensures { result ≡ sum_of self.now other.now }
    {
        self.add(other).unwrap()
    }

    /// `k` times the form, for which there is always room.
    pub fn multiple(&self, k: u32) -> Form<8>
        ensures { result ≡ scaled k self.now }
    {
        self.scale(k).unwrap()
    }

    /// The form with each atom replaced by the form with its number, all at once, or `None` where that
    /// has more than `R` terms. An atom whose number is past the forms stays.
    pub fn substitute<const R: usize>(&self, forms: &[Form<8>]) -> Option<Form<R>>
        ensures substituted { result ≡ within R (substituted forms.now self.now) }
        ensures meaning { (v : ℕ → ℕ) → IfSome result
            (λ f. value v f ≡ value (λ a. value v (form_at forms.now a)) self.now) }
    {
        replace_atoms(Form::number(self.constant), self.terms.as_slice(), forms)?.resize()
    }
}

/// The multiple of what stands in the term's atom's place.
fn replaced(term: Term, forms: &[Form<8>]) -> Form<8>
    ensures product { result ≡ scaled term.coefficient (form_at forms.now term.atom) }
    ensures room { length result.terms ≤ 8 }
{
    match forms.get(usize::from(term.atom)) {
        Some(form) => form.scale(term.coefficient).unwrap(),
        None => Form::<8>::atom(term.atom).scale(term.coefficient).unwrap(),
    }
}

/// The sum of `start` and the terms with their atoms replaced. Eight forms of eight terms have room.
fn replace_atoms(start: Form<64>, terms: &[Term], forms: &[Form<8>]) -> Option<Form<64>>
    requires none_yet { start.terms ≡ [] }
    requires at_most_eight { length terms.now ≤ 8 }
    ensures { result ≡ Some (with_replaced forms.now start terms.now) }
{
    let mut sum = start;
    for term in terms {
        sum = sum.add(&replaced(*term, forms))?;
    }
    Some(sum)
}
