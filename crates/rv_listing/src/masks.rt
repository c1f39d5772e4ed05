//! Listings of the instructions on masks.

ghost use Rattle.rv_listing.specs.Vector.{mask_text, one_mask_text};
ghost use Rattle.rv_listing.specs.Sinks.{Told};

use crate::fields::{Field, put_fields};
use crate::names::{logic_name, set_first_name};
use crate::sink::{Failed, Sink};
use rv_decode::{Reg, VMask};

/// Writes an instruction on one mask.
fn put_on_mask<S: Sink>(
    out: &mut S,
    name: &str,
    destination: Field,
    vs2: Reg,
    masked: bool,
) -> Result<(), Failed>
    ensures { Told result (S.contents out.old) (S.contents out.new) (S.failures out.old)
        (S.failures out.new) (one_mask_text name.now destination vs2 masked) }
{
    let fields = [destination, Field::Vs2(vs2), Field::Vm(!masked)];
    put_fields(out, name, ".m", &fields)
}

/// Writes an instruction on masks.
#[tactic(auto, unfolding(crate::specs::Vector::mask_text))]
pub(crate) fn put_mask<S: Sink>(out: &mut S, insn: &VMask) -> Result<(), Failed>
    ensures { Told result (S.contents out.old) (S.contents out.new)
        (S.failures out.old) (S.failures out.new) (mask_text insn.now) }
{
    match insn {
        VMask::Logic { op, vd, vs2, vs1 } => put_fields(
            out,
            logic_name(*op),
            ".mm",
            &[
                Field::Vd(*vd),
                Field::Vs2(*vs2),
                Field::Vs1(*vs1),
                Field::Vm(true),
            ],
        ),
        VMask::Count { rd, vs2, masked } => put_on_mask(
            out,
            "vcpop",
            Field::Rd(*rd),
            *vs2,
            *masked,
        ),
        VMask::First { rd, vs2, masked } => put_on_mask(
            out,
            "vfirst",
            Field::Rd(*rd),
            *vs2,
            *masked,
        ),
        VMask::SetFirst {
            op,
            vd,
            vs2,
            masked,
        } => put_on_mask(out, set_first_name(*op), Field::Vd(*vd), *vs2, *masked),
        VMask::Iota { vd, vs2, masked } => put_on_mask(out, "viota", Field::Vd(*vd), *vs2, *masked),
        VMask::Index { vd, masked } => put_fields(
            out,
            "vid",
            ".v",
            &[Field::Vd(*vd), Field::Vm(!*masked)],
        ),
    }
}
