//! Elements of one width as elements of another.

ghost use Rattle.std.specs.Prelude.{◌≡◌, IfSome, length, map};
ghost use Rattle.lane_int.specs.Resizing.{cut_to, extended_to};
ghost use Rattle.rv_decode.specs.Needs.{second as second_group};
ghost use Rattle.vreg_groups.specs.Legality.{IsInside};
ghost use Rattle.vector_core.specs.Integer.{lane_width};
ghost use Rattle.vector_core.specs.Operands.{second_of};
ghost use Rattle.vector_core.specs.Setup.{IsSetup};
ghost use Rattle.vector_core.specs.Widening.{doubled};

use crate::elements::VectorElement;
use crate::operands::read_second;
use crate::setup::Setup;
use lane_int::Narrow;
use rv_decode::Source;
use scalar_core::Scalar;
use vreg_groups::VregFile;

/// An element of half as many bits as `W`.
pub trait HalfOf<W: VectorElement>: VectorElement + Narrow<W> {
    ghost use Rattle.std.specs.Prelude.{◌≡◌, ◌/◌};
    ghost use Rattle.lane_int.specs.Integer.{double};
    ghost use Rattle.rv_decode.specs.declared.extents.Eew.TheVariants.{Double};
    ghost use Rattle.vreg_groups.specs.Legality.{eew_bits};
    ghost use Rattle.vector_core.specs.Integer.{lane_width};

    ghost double_size: { W.SIZE ≡ eew_bits Self.sew Double / 8 };

    ghost double_lanes: { lane_width W.sew ≡ double (lane_width Self.sew) };
}

impl HalfOf<u16> for u8 {
    ghost use Rattle.std.specs.Prelude.{refl};

    ghost double_size = { refl };

    ghost double_lanes = { refl };
}

impl HalfOf<u32> for u16 {
    ghost use Rattle.std.specs.Prelude.{refl};

    ghost double_size = { refl };

    ghost double_lanes = { refl };
}

/// Writes each element of `values`, extended by its sign or by zeros.
pub fn extend_results<N: VectorElement + Narrow<W>, W: VectorElement>(
    is_signed: bool,
    values: &[N],
    out: &mut [W],
)
    requires { length values.now ≡ length out.old }
    ensures { map W.Element.number out.new
        ≡ map (extended_to is_signed (lane_width N.sew) (lane_width W.sew))
        (map N.Element.number values.now) }
{
    lane_int::extend(is_signed, values, out);
}

/// Writes the low half of each element of `values`.
pub fn cut_results<N: HalfOf<W>, W: VectorElement>(values: &[W], out: &mut [N])
    requires { length values.now ≡ length out.old }
    ensures { map N.Element.number out.new
        ≡ map (cut_to (lane_width N.sew)) (map W.Element.number values.now) }
{
    lane_int::cut(values, out);
}

/// Reads the elements of an operand of SEW as elements of 2*SEW. `narrow` has room for them before they are extended.
pub fn read_doubled<N: HalfOf<W>, W: VectorElement, const VLENB: usize>(
    registers: &VregFile<VLENB>,
    scalar: &Scalar,
    setup: &Setup,
    source: Source,
    is_signed: bool,
    narrow: &mut [N],
    out: &mut [W],
)
    requires narrow_len { length narrow.old ≡ setup.now.vl }
    requires len { length out.old ≡ setup.now.vl }
    requires width { N.sew ≡ setup.now.vtype.sew }
    requires setup { IsSetup VLENB setup.now }
    requires inside { IfSome (second_group source) (IsInside setup.now.vtype) }
    ensures { map W.Element.number out.new ≡ doubled setup.now is_signed
        (second_of VLENB setup.now scalar.now source registers.now) }
{
    read_second(registers, scalar, setup, source, narrow);
    extend_results(is_signed, narrow, out);
}
