//! Sums modulo 2^32, of a constant and multiples of numbers, as they are told.
ghost use Rattle.std.specs.Prelude.{◌≡◌, false};
ghost use Rattle.abs_domain.specs.Starts.{equality_form};
ghost use Rattle.check_reasons.specs.Sums.{is_added as is_added_of, less_of};

use arrayvec::ArrayVec;
use cert_note::Equality;
use explanations::Address;
use linear_facts::{Form, Term};
use std::fmt;
use std::marker::Model;

/// The number of vl, behind those of the registers.
pub(crate) const VL: u8 = abs_domain::VL as u8;
/// The first atom of what was passed, by place.
const PASSED: u16 = abs_domain::VL as u16 + 1;
/// The first atom of what an instruction left.
const FRESH: u16 = PASSED + 8;

/// A sum modulo 2^32. Its atoms are x1 to x31 and vl where a block begins, and the numbers that were passed,
/// by place. Any other atom is an unknown number that an instruction left.
#[derive(Drop)]
pub struct Sum<const N: usize> {
    pub constant: u32,
    pub terms: ArrayVec<Term, N>,
}

impl<const N: usize> Model for Sum<N> {
    ghost use Rattle.linear_facts.specs.Forms.{Linear};

    ghost Value = { Linear };

    ghost view = { λ s. record { constant = s.constant; terms = s.terms.items } };
}

/// A form as a sum.
pub(crate) fn sum_of<const N: usize>(form: Form<N>) -> Sum<N>
    ensures { result ≡ form.entry }
{
    Sum {
        constant: form.constant,
        terms: form.terms,
    }
}

/// The sum that an equality states.
pub(crate) fn sum_stated(equality: &Equality) -> Sum<8>
    ensures { result ≡ equality_form equality.now }
{
    let mut terms = ArrayVec::new();
    for term in equality.terms.as_slice() {
        terms.push(Term {
            atom: u16::from(term.atom),
            coefficient: term.coefficient,
        });
    }
    Sum {
        constant: equality.constant,
        terms,
    }
}

/// A register, or vl.
#[derive(Clone, Copy)]
pub(crate) struct Name(pub(crate) u8);

impl fmt::Display for Name {
    ghost use Rattle.std.specs.Prelude.{Some};
    ghost use Rattle.check_reasons.specs.Sums.{name_text};

    ghost output = { λ name. Some (name_text name.0) };

    #[tactic(auto, unfolding(crate::specs::Sums::name_text))]
    fn fmt<W: fmt::Write>(&self, f: &mut fmt::Formatter<W>) -> fmt::Result {
        let number = self.0;
        if number == VL {
            write!(f, "vl")
        } else {
            write!(f, "x{number}")
        }
    }
}

/// An atom of a sum.
#[derive(Clone, Copy)]
struct Atom(u16);

impl fmt::Display for Atom {
    ghost use Rattle.std.specs.Prelude.{Some};
    ghost use Rattle.check_reasons.specs.Sums.{atom_text};

    ghost output = { λ atom. Some (atom_text atom.0) };

    #[tactic(auto, unfolding(crate::specs::Sums::atom_text))]
    fn fmt<W: fmt::Write>(&self, f: &mut fmt::Formatter<W>) -> fmt::Result {
        let atom = self.0;
        if atom < PASSED {
            let name = Name(atom as u8);
            write!(f, "{name}")
        } else if atom < FRESH {
            let place = atom - PASSED;
            write!(f, "param {place}")
        } else {
            let number = atom - FRESH;
            write!(f, "n{number}")
        }
    }
}

/// How many times a number is taken, in front of its name. Once is not told.
#[derive(Clone, Copy)]
pub(crate) struct Times(pub(crate) u32);

impl fmt::Display for Times {
    ghost use Rattle.std.specs.Prelude.{Some};
    ghost use Rattle.check_reasons.specs.Sums.{times_text};

    ghost output = { λ times. Some (times_text times.0) };

    #[tactic(auto, unfolding(crate::specs::Sums::times_text))]
    fn fmt<W: fmt::Write>(&self, f: &mut fmt::Formatter<W>) -> fmt::Result {
        let times = self.0;
        if times == 1 {
            Ok(())
        } else {
            write!(f, "{times} * ")
        }
    }
}

/// Whether the text adds a multiple of an atom. It takes away any other.
fn is_added(term: Term) -> bool
    ensures { result ≡ is_added_of term }
{
    term.coefficient < 1 << 31
}

/// How many times its atom a term takes away that is not added.
fn less(term: Term) -> u32
    requires { is_added_of term ≡ false }
    ensures { result ≡ less_of term }
{
    let less = (1_u64 << 32) - u64::from(term.coefficient);
    less as u32
}

/// A multiple of an atom that is added, or taken away.
#[derive(Clone, Copy)]
struct TermText(Term);

impl fmt::Display for TermText {
    ghost use Rattle.std.specs.Prelude.{Some};
    ghost use Rattle.check_reasons.specs.Sums.{term_text};

    ghost output = { λ term. Some (term_text term.0) };

    #[tactic(auto, unfolding(crate::specs::Sums::term_text))]
    fn fmt<W: fmt::Write>(&self, f: &mut fmt::Formatter<W>) -> fmt::Result {
        let atom = Atom(self.0.atom);
        if is_added(self.0) {
            let more = Times(self.0.coefficient);
            write!(f, " + {more}{atom}")
        } else {
            let less = Times(less(self.0));
            write!(f, " - {less}{atom}")
        }
    }
}

/// The first one of a sum, where nothing stands before it.
#[derive(Clone, Copy)]
struct FirstText(Term);

impl fmt::Display for FirstText {
    ghost use Rattle.std.specs.Prelude.{Some};
    ghost use Rattle.check_reasons.specs.Sums.{first_text};

    ghost output = { λ term. Some (first_text term.0) };

    #[tactic(auto, unfolding(crate::specs::Sums::first_text))]
    fn fmt<W: fmt::Write>(&self, f: &mut fmt::Formatter<W>) -> fmt::Result {
        let atom = Atom(self.0.atom);
        if is_added(self.0) {
            let more = Times(self.0.coefficient);
            write!(f, "{more}{atom}")
        } else {
            let less = Times(less(self.0));
            write!(f, "-{less}{atom}")
        }
    }
}

/// The terms of a sum.
#[derive(Clone, Copy)]
struct Terms<'a>(&'a [Term]);

impl fmt::Display for Terms<'_> {
    ghost use Rattle.std.specs.Prelude.{Some};
    ghost use Rattle.check_reasons.specs.Sums.{terms_text};

    ghost output = { λ terms. Some (terms_text terms.0.now) };

    #[tactic(auto, unfolding(crate::specs::Sums::terms_text))]
    fn fmt<W: fmt::Write>(&self, f: &mut fmt::Formatter<W>) -> fmt::Result {
        for term in self.0 {
            let term = TermText(*term);
            write!(f, "{term}")?;
        }
        Ok(())
    }
}

impl<const N: usize> fmt::Display for Sum<N> {
    ghost use Rattle.std.specs.Prelude.{Some};
    ghost use Rattle.check_reasons.specs.Sums.{sum_text};

    ghost output = { λ sum. Some (sum_text sum) };

    #[tactic(auto, unfolding(crate::specs::Sums::sum_of))]
    fn fmt<W: fmt::Write>(&self, f: &mut fmt::Formatter<W>) -> fmt::Result {
        let constant = Address(u64::from(self.constant));
        let terms = self.terms.as_slice();
        match terms.split_first() {
            None => write!(f, "{constant}"),
            Some((first, others)) => {
                if self.constant == 0 {
                    let first = FirstText(*first);
                    let others = Terms(others);
                    write!(f, "{first}{others}")
                } else {
                    let terms = Terms(terms);
                    write!(f, "{constant}{terms}")
                }
            }
        }
    }
}
