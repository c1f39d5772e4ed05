//! Facts on vector registers, as they are told.
ghost use Rattle.std.specs.Prelude.{◌≡◌};
ghost use Rattle.std.specs.Option.{option_map};
ghost use Rattle.check_reasons.specs.Groups.{group_at as group_at_of};

use crate::spans::Span;
use cert_note::VectorFact;
use linear_facts::Range;
use std::fmt;

/// The fact on a group that begins at a register.
fn fact_at(register: u8, groups: &[VectorFact]) -> Option<&VectorFact>
    ensures { option_map (λ fact. fact.now) result ≡ group_at_of register groups.now }
{
    groups.iter().find(|fact| fact.register == register)
}

/// What is known of a group that begins at a register.
pub(crate) fn group_at(register: u8, groups: &[VectorFact]) -> Option<VectorFact>
    ensures { result ≡ group_at_of register groups.now }
{
    match fact_at(register, groups) {
        None => None,
        Some(fact) => Some(*fact),
    }
}

/// A fact on vector registers: its group, and what it states of the elements. A count of 0 stands for vl of them.
#[derive(Clone, Copy)]
pub(crate) struct Vector(pub(crate) VectorFact);

impl fmt::Display for Vector {
    ghost use Rattle.std.specs.Prelude.{Some};
    ghost use Rattle.check_reasons.specs.Groups.{vector_text};

    ghost output = { λ vector. Some (vector_text vector.0) };

    #[tactic(auto, unfolding(crate::specs::Groups::vector_text, crate::specs::Groups::count_text))]
    fn fmt<W: fmt::Write>(&self, f: &mut fmt::Formatter<W>) -> fmt::Result {
        let VectorFact {
            register,
            registers,
            width,
            count,
            low,
            high,
            ..
        } = self.0;
        let range = Span(Range { lo: low, hi: high });
        write!(f, "v{register}, registers {registers}, SEW {width}")?;
        if count == 0 {
            write!(f, ": vl elements in {range}")
        } else {
            write!(f, ": {count} elements in {range}")
        }
    }
}
