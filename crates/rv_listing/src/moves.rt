//! Listings of the vset forms, and of the moves between element 0 and an x register and those of
//! whole registers.

ghost use Rattle.rv_listing.specs.Vector.{move_text, vset_text};
ghost use Rattle.rv_listing.specs.Sinks.{Told};

use crate::fields::{Field, put_fields};
use crate::names::whole_move_name;
use crate::sink::{Failed, Sink};
use rv_decode::{VMove, VSet};

/// Writes an instruction that sets vtype and vl.
#[tactic(auto, unfolding(crate::specs::Vector::vset_text))]
pub(crate) fn put_vset<S: Sink>(out: &mut S, insn: &VSet) -> Result<(), Failed>
    ensures { Told result (S.contents out.old) (S.contents out.new)
        (S.failures out.old) (S.failures out.new) (vset_text insn.now) }
{
    match insn {
        VSet::Vsetvli { rd, rs1, vtype } => put_fields(
            out,
            "vsetvli",
            "",
            &[Field::Rd(*rd), Field::Rs1(*rs1), Field::Amount(*vtype)],
        ),
        VSet::Vsetivli { rd, avl, vtype } => put_fields(
            out,
            "vsetivli",
            "",
            &[Field::Rd(*rd), Field::Avl(*avl), Field::Amount(*vtype)],
        ),
        VSet::Vsetvl { rd, rs1, rs2 } => put_fields(
            out,
            "vsetvl",
            "",
            &[Field::Rd(*rd), Field::Rs1(*rs1), Field::Rs2(*rs2)],
        ),
    }
}

/// Writes a move.
#[tactic(auto, unfolding(crate::specs::Vector::move_text))]
pub(crate) fn put_move<S: Sink>(out: &mut S, insn: &VMove) -> Result<(), Failed>
    ensures { Told result (S.contents out.old) (S.contents out.new)
        (S.failures out.old) (S.failures out.new) (move_text insn.now) }
{
    match insn {
        VMove::ToScalar { rd, vs2 } => put_fields(
            out,
            "vmv",
            ".x.s",
            &[Field::Rd(*rd), Field::Vs2(*vs2), Field::Vm(true)],
        ),
        VMove::FromScalar { vd, rs1 } => put_fields(
            out,
            "vmv",
            ".s.x",
            &[Field::Vd(*vd), Field::Rs1(*rs1), Field::Vm(true)],
        ),
        VMove::Whole { count, vd, vs2 } => put_fields(
            out,
            whole_move_name(*count),
            ".v",
            &[Field::Vd(*vd), Field::Vs2(*vs2), Field::Vm(true)],
        ),
    }
}
