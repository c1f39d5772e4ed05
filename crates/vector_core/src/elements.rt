//! Elements that lie in registers and that the lanes work on.

ghost use Rattle.std.specs.Prelude.{◌≡◌, length, map};
ghost use Rattle.rv_decode.specs.Instructions.{bytes_of_width};
ghost use Rattle.vector_mem.specs.Accesses.{low_bits};

use lane_file::ByteLane;
use lane_fixed::FixedLane;
use lane_int::Lane;
use lane_masks::FoldLane;
use vreg_groups::Element;

/// An element of a register group on which the lanes work.
pub trait VectorElement: Element + Lane + ByteLane + FixedLane + FoldLane {
    ghost use Rattle.std.specs.Prelude.{◌≡◌};
    ghost use Rattle.rv_decode.specs.declared.instructions.Width.{Width};
    ghost use Rattle.rv_decode.specs.Instructions.{bytes_of_width};
    ghost use Rattle.vector_core.specs.Integer.{lane_width};

    // SEW
    ghost sew: { Width };

    ghost size_is: { Self.SIZE ≡ bytes_of_width sew };

    ghost width_is: { Self.Lane.width ≡ lane_width sew };

    ghost number_is: { Self.Lane.number ≡ Self.Element.number };

    ghost lane_size_is: { Self.Lane.size ≡ bytes_of_width sew };

    ghost fixed_width_is: { Self.FixedLane.width ≡ lane_width sew };

    ghost fixed_number_is: { Self.FixedLane.number ≡ Self.Element.number };

    ghost fold_width_is: { Self.FoldLane.width ≡ lane_width sew };

    ghost fold_number_is: { Self.FoldLane.number ≡ Self.Element.number };
}

impl VectorElement for u8 {
    ghost use Rattle.std.specs.Prelude.{refl};
    ghost use Rattle.rv_decode.specs.declared.instructions.Width.TheVariants.{W8};

    ghost sew = { W8 };

    ghost size_is = { refl };

    ghost width_is = { refl };

    ghost number_is = { refl };

    ghost lane_size_is = { refl };

    ghost fixed_width_is = { refl };

    ghost fixed_number_is = { refl };

    ghost fold_width_is = { refl };

    ghost fold_number_is = { refl };
}

impl VectorElement for u16 {
    ghost use Rattle.std.specs.Prelude.{refl};
    ghost use Rattle.rv_decode.specs.declared.instructions.Width.TheVariants.{W16};

    ghost sew = { W16 };

    ghost size_is = { refl };

    ghost width_is = { refl };

    ghost number_is = { refl };

    ghost lane_size_is = { refl };

    ghost fixed_width_is = { refl };

    ghost fixed_number_is = { refl };

    ghost fold_width_is = { refl };

    ghost fold_number_is = { refl };
}

impl VectorElement for u32 {
    ghost use Rattle.std.specs.Prelude.{refl};
    ghost use Rattle.rv_decode.specs.declared.instructions.Width.TheVariants.{W32};

    ghost sew = { W32 };

    ghost size_is = { refl };

    ghost width_is = { refl };

    ghost number_is = { refl };

    ghost lane_size_is = { refl };

    ghost fixed_width_is = { refl };

    ghost fixed_number_is = { refl };

    ghost fold_width_is = { refl };

    ghost fold_number_is = { refl };
}

/// The element in the low bits of a number.
#[tactic(auto, using(crate::proofs::Moved::low_is))]
pub fn low_bits<E: VectorElement>(n: u32) -> E
    ensures { E.Element.number result ≡ low_bits (bytes_of_width E.sew) n }
{
    <E as FoldLane>::low(n)
}

/// The element 0.
#[tactic(auto, using(vector_mem::specs::StepLemmas::zero_bits))]
pub fn zero<E: VectorElement>() -> E
    ensures { E.Element.number result ≡ 0 }
{
    low_bits(0)
}

/// The elements as numbers.
pub fn numbers_of<E: VectorElement>(elements: &[E], out: &mut [u32])
    requires { length elements.now ≡ length out.old }
    ensures { out.new ≡ map E.Element.number elements.now }
{
    for i in 0..out.len() {
        out[i] = elements[i].extended(false);
    }
}
