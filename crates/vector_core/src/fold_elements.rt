//! What the lanes of folds compute on elements of two widths, as numbers.

ghost use Rattle.std.specs.Prelude.{◌≡◌, length, map};
ghost use Rattle.std.specs.Int.{w32, cast_signed, cast_unsigned};
ghost use Rattle.lane_masks.specs.Folds.{extended, fold_of};
ghost use Rattle.rv_decode.specs.declared.instructions.FoldOp.TheVariants.{Sum};
ghost use Rattle.vector_core.specs.Integer.{lane_width};

use crate::elements::VectorElement;

/// The sum of `start` with the active elements of `values`, each extended to the width of the sum.
pub fn extended_sum<W: VectorElement, N: VectorElement>(
    is_signed: bool,
    start: W,
    values: &[N],
    active: &[bool],
) -> W
    requires { length active.now ≡ length values.now }
    ensures { W.Element.number result ≡ fold_of Sum (lane_width W.sew)
        (W.Element.number start) active.now
        (map (extended is_signed (lane_width N.sew) (lane_width W.sew))
        (map N.Element.number values.now)) }
{
    lane_masks::fold_extended(is_signed, start, values, active)
}

/// The element extended to 32 bits by its sign.
pub fn sign_extended<E: VectorElement>(element: E) -> u32
    ensures { result ≡ cast_unsigned w32
        (cast_signed (lane_width E.sew) (E.Element.number element)) }
{
    element.extended(true)
}
