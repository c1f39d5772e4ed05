//! Listings of the reductions.

ghost use Rattle.std.specs.Prelude.{◌≡◌};
ghost use Rattle.rv_listing.specs.Vector.{named_reduction, reduction_text, widen_sum_name};
ghost use Rattle.rv_listing.specs.Sinks.{Told};

use crate::fields::{Field, put_fields};
use crate::names::fold_name;
use crate::sink::{Failed, Sink};
use rv_decode::{Reg, VReduce};

fn widen_sum(signed: bool) -> &'static str
    ensures { result.now ≡ widen_sum_name signed }
{
    if signed { "vwredsum" } else { "vwredsumu" }
}

/// Writes a reduction of this name.
fn put_named<S: Sink>(
    out: &mut S,
    name: &str,
    vd: Reg,
    vs2: Reg,
    vs1: Reg,
    masked: bool,
) -> Result<(), Failed>
    ensures { Told result (S.contents out.old) (S.contents out.new) (S.failures out.old)
        (S.failures out.new) (named_reduction name.now vd vs2 vs1 masked) }
{
    let fields = [
        Field::Vd(vd),
        Field::Vs2(vs2),
        Field::Vs1(vs1),
        Field::Vm(!masked),
    ];
    put_fields(out, name, ".vs", &fields)
}

/// Writes a reduction.
#[tactic(auto, unfolding(crate::specs::Vector::reduction_text))]
pub(crate) fn put_reduction<S: Sink>(out: &mut S, insn: &VReduce) -> Result<(), Failed>
    ensures { Told result (S.contents out.old) (S.contents out.new)
        (S.failures out.old) (S.failures out.new) (reduction_text insn.now) }
{
    match insn {
        VReduce::Fold {
            op,
            vd,
            vs2,
            vs1,
            masked,
        } => put_named(out, fold_name(*op), *vd, *vs2, *vs1, *masked),
        VReduce::WidenSum {
            signed,
            vd,
            vs2,
            vs1,
            masked,
        } => put_named(out, widen_sum(*signed), *vd, *vs2, *vs1, *masked),
    }
}
