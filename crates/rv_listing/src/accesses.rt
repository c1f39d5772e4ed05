//! Listings of the vector loads and stores.

ghost use Rattle.std.specs.Prelude.{◌≡◌};
ghost use Rattle.rv_listing.specs.Accesses.{access_form, access_name, access_text, values_field};
ghost use Rattle.rv_listing.specs.Sinks.{Told};

use crate::fields::{Field, put_fields};
use crate::names::{whole_load_name, whole_store_name, width_form};
use crate::sink::{Failed, Sink};
use rv_decode::{Addressing, Direction, Reg, VMem};

/// The mnemonic, before the width of its elements.
fn name(direction: Direction, place: &Addressing) -> &'static str
    ensures { result.now ≡ access_name direction place.now }
{
    match (direction, place) {
        (Direction::Load, Addressing::Unit { .. }) => "vle",
        (Direction::Load, Addressing::Strided { .. }) => "vlse",
        (Direction::Load, Addressing::Indexed { ordered: true, .. }) => "vloxei",
        (Direction::Load, Addressing::Indexed { ordered: false, .. }) => "vluxei",
        (Direction::Load, Addressing::Mask) => "vlm",
        (Direction::Load, Addressing::Whole { count, .. }) => whole_load_name(*count),
        (Direction::Store, Addressing::Unit { .. }) => "vse",
        (Direction::Store, Addressing::Strided { .. }) => "vsse",
        (Direction::Store, Addressing::Indexed { ordered: true, .. }) => "vsoxei",
        (Direction::Store, Addressing::Indexed { ordered: false, .. }) => "vsuxei",
        (Direction::Store, Addressing::Mask) => "vsm",
        (Direction::Store, Addressing::Whole { count, .. }) => whole_store_name(*count),
    }
}

/// What follows the mnemonic.
fn form(direction: Direction, place: &Addressing) -> &'static str
    ensures { result.now ≡ access_form direction place.now }
{
    match (direction, place) {
        (
            _,
            Addressing::Unit { width, .. }
            | Addressing::Strided { width, .. }
            | Addressing::Indexed { width, .. },
        ) => width_form(*width),
        (Direction::Load, Addressing::Whole { width, .. }) => width_form(*width),
        (_, Addressing::Mask) | (Direction::Store, Addressing::Whole { .. }) => ".v",
    }
}

/// The data's group.
fn group(direction: Direction, values: Reg) -> Field
    ensures { result ≡ values_field direction values }
{
    match direction {
        Direction::Load => Field::Vd(values),
        Direction::Store => Field::Vs3(values),
    }
}

/// Writes a vector load or store.
#[tactic(auto, unfolding(crate::specs::Accesses::access_text))]
pub(crate) fn put_access<S: Sink>(out: &mut S, insn: &VMem) -> Result<(), Failed>
    ensures { Told result (S.contents out.old) (S.contents out.new)
        (S.failures out.old) (S.failures out.new) (access_text insn.now) }
{
    let VMem {
        direction,
        place,
        values,
        rs1,
    } = insn;
    let name = name(*direction, place);
    let form = form(*direction, place);
    let values = group(*direction, *values);
    let rs1 = Field::Rs1(*rs1);
    let (offset, masked) = match place {
        Addressing::Unit { masked, .. } => (None, *masked),
        Addressing::Strided { rs2, masked, .. } => (Some(Field::Rs2(*rs2)), *masked),
        Addressing::Indexed { vs2, masked, .. } => (Some(Field::Vs2(*vs2)), *masked),
        Addressing::Mask | Addressing::Whole { .. } => (None, false),
    };
    let vm = Field::Vm(!masked);
    match offset {
        None => put_fields(out, name, form, &[values, rs1, vm]),
        Some(offset) => put_fields(out, name, form, &[values, rs1, offset, vm]),
    }
}
