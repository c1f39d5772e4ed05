//! What an instruction needs of the vector registers: which groups it reads and writes, and how long they are.

ghost use Rattle.std.specs.Prelude.{◌≡◌, Option};
ghost use Rattle.rv_decode.specs.Needs.{needs_of, needs_of_arith, needs_of_access, needs_of_mask};
ghost use Rattle.rv_decode.specs.Needs.{needs_of_move, needs_of_perm, needs_of_reduce};
ghost use Rattle.rv_decode.specs.Needs.{group as group_of, mask as mask_of, second as second_of};
ghost use Rattle.rv_decode.specs.Needs.{single as single_of, whole as whole_of};
ghost use Rattle.rv_decode.specs.Needs.{operands as operands_of, eew_of};
ghost use Rattle.rv_decode.specs.Needs.{access_operands as access_operands_of};
ghost use Rattle.rv_decode.specs.declared.extents.Eew.TheVariants as eew;

use crate::{
    Addressing, Count, Direction, Fraction, Insn, Reg, Source, VArith, VMask, VMem, VMove, VPerm,
    VReduce, Width,
};

/// The width of the elements of an operand: a multiple of SEW, or a width of its own.
#[derive(Clone, Copy, PartialEq, Eq)]
pub enum Eew {
    Quarter,
    Half,
    Same,
    Double,
    Fixed(Width),
}

impl Fraction {
    /// The width of what vzext and vsext extend to SEW: half of it or a quarter ("Vector Integer Extension").
    #[inline(always)]
    pub fn eew(self) -> Eew
        ensures { result ≡ eew_of self }
    {
        match self {
            Fraction::Half => Eew::Half,
            Fraction::Quarter => Eew::Quarter,
        }
    }
}

/// How much of the registers an operand covers.
#[derive(Clone, Copy, PartialEq, Eq)]
pub enum Extent {
    /// A group of EMUL = EEW / SEW * LMUL registers.
    Group(Eew),
    /// The first element of one register, outside the rules on EMUL and overlap.
    Single(Eew),
    /// One register with a bit for each element.
    Mask,
    /// These registers, whatever vtype says.
    Whole(Count),
}

/// An operand in vector registers: the first register of what it covers.
#[derive(Clone, Copy, PartialEq, Eq)]
pub struct Operand {
    pub first: Reg,
    pub extent: Extent,
}

/// What a destination may share with a source: registers as the overlap rule allows by their widths, or nothing.
#[derive(Clone, Copy, PartialEq, Eq)]
pub enum Sharing {
    ByWidth,
    Nothing,
}

/// The operands of an instruction in vector registers. The data of a store stands in `vs1`. `is_masked` says that the
/// instruction reads v0 as its mask, or as its carry or selecting operand.
#[derive(Clone, Copy, PartialEq, Eq)]
pub struct Operands {
    pub destination: Option<Operand>,
    pub vs2: Option<Operand>,
    pub vs1: Option<Operand>,
    pub is_masked: bool,
    pub sharing: Sharing,
}

/// The operands of `insn` in vector registers, with their widths relative to SEW.
#[tactic(auto, unfolding(crate::specs::Needs::needs_of))]
pub fn needs(insn: &Insn) -> Operands
    ensures { result ≡ needs_of insn.now }
{
    match insn {
        Insn::Scalar(_) | Insn::Csr(_) | Insn::VSet(_) => by_width(None, None, None, false),
        Insn::VArith(arith) => needs_arith(arith),
        Insn::VMask(mask) => needs_mask(mask),
        Insn::VPerm(perm) => needs_perm(perm),
        Insn::VReduce(reduce) => needs_reduce(reduce),
        Insn::VMem(access) => needs_access(access),
        Insn::VMove(mov) => needs_move(mov),
    }
}

fn group(first: Reg, eew: Eew) -> Option<Operand>
    ensures { result ≡ group_of eew first }
{
    Some(Operand {
        first,
        extent: Extent::Group(eew),
    })
}

/// The second operand where it is a vector of SEW.
#[tactic(auto, unfolding(crate::specs::Needs::second))]
fn second(b: &Source) -> Option<Operand>
    ensures { result ≡ second_of b.now }
{
    match b {
        Source::Vector(vs1) => group(*vs1, Eew::Same),
        Source::Scalar(_) => None,
        Source::Immediate(_) => None,
    }
}

fn mask(first: Reg) -> Option<Operand>
    ensures { result ≡ mask_of first }
{
    Some(Operand {
        first,
        extent: Extent::Mask,
    })
}

fn single(first: Reg, eew: Eew) -> Option<Operand>
    ensures { result ≡ single_of eew first }
{
    Some(Operand {
        first,
        extent: Extent::Single(eew),
    })
}

fn whole(first: Reg, count: Count) -> Option<Operand>
    ensures { result ≡ whole_of count first }
{
    Some(Operand {
        first,
        extent: Extent::Whole(count),
    })
}

fn by_width(
    destination: Option<Operand>,
    vs2: Option<Operand>,
    vs1: Option<Operand>,
    is_masked: bool,
) -> Operands
    ensures { result ≡ operands_of destination vs2 vs1 is_masked Sharing.ByWidth }
{
    Operands {
        destination,
        vs2,
        vs1,
        is_masked,
        sharing: Sharing::ByWidth,
    }
}

/// The operands of an instruction whose destination shares no register with a source.
fn apart(
    destination: Option<Operand>,
    vs2: Option<Operand>,
    vs1: Option<Operand>,
    is_masked: bool,
) -> Operands
    ensures { result ≡ operands_of destination vs2 vs1 is_masked Sharing.Nothing }
{
    Operands {
        destination,
        vs2,
        vs1,
        is_masked,
        sharing: Sharing::Nothing,
    }
}

/// The operands of an operation on groups at `vd` and `vs2`, of these widths, and on `b`.
fn two_sources(vd: Reg, to: Eew, vs2: Reg, from: Eew, b: &Source, is_masked: bool) -> Operands
    ensures { result ≡ operands_of (group_of to vd) (group_of from vs2)
        (second_of b.now) is_masked Sharing.ByWidth }
{
    by_width(group(vd, to), group(vs2, from), second(b), is_masked)
}

/// The same where all are of SEW.
fn same(vd: Reg, vs2: Reg, b: &Source, is_masked: bool) -> Operands
    ensures { result ≡ operands_of (group_of eew.Same vd) (group_of eew.Same vs2)
        (second_of b.now) is_masked Sharing.ByWidth }
{
    two_sources(vd, Eew::Same, vs2, Eew::Same, b, is_masked)
}

/// The same where the destination is a mask.
fn to_mask(vd: Reg, vs2: Reg, b: &Source, is_masked: bool) -> Operands
    ensures { result ≡ operands_of (mask_of vd) (group_of eew.Same vs2)
        (second_of b.now) is_masked Sharing.ByWidth }
{
    by_width(mask(vd), group(vs2, Eew::Same), second(b), is_masked)
}

/// The same where the destination is of 2*SEW.
fn widened(vd: Reg, vs2: Reg, b: &Source, is_masked: bool) -> Operands
    ensures { result ≡ operands_of (group_of eew.Double vd) (group_of eew.Same vs2)
        (second_of b.now) is_masked Sharing.ByWidth }
{
    two_sources(vd, Eew::Double, vs2, Eew::Same, b, is_masked)
}

/// The same where the destination and the first source are of 2*SEW.
fn wide(vd: Reg, vs2: Reg, b: &Source, is_masked: bool) -> Operands
    ensures { result ≡ operands_of (group_of eew.Double vd) (group_of eew.Double vs2)
        (second_of b.now) is_masked Sharing.ByWidth }
{
    two_sources(vd, Eew::Double, vs2, Eew::Double, b, is_masked)
}

/// The same where the first source is of 2*SEW.
fn narrowed(vd: Reg, vs2: Reg, b: &Source, is_masked: bool) -> Operands
    ensures { result ≡ operands_of (group_of eew.Same vd) (group_of eew.Double vs2)
        (second_of b.now) is_masked Sharing.ByWidth }
{
    two_sources(vd, Eew::Same, vs2, Eew::Double, b, is_masked)
}

/// What `$arith` needs, by its shape: of one with vd, vs2, `b` and a mask that may be on, what the function in its row
/// makes of them; of the others, what their arms say.
macro_rules! needs_by_shape {
    ($arith:expr; $($shape:ident: $needs:ident,)*; $($arms:tt)*) => {
        match $arith {
            $(VArith::$shape { vd, vs2, b, masked, .. } => $needs(*vd, *vs2, b, *masked),)*
            $($arms)*
        }
    };
}

#[tactic(auto, unfolding(crate::specs::Needs::needs_of_arith))]
fn needs_arith(arith: &VArith) -> Operands
    ensures { result ≡ needs_of_arith arith.now }
{
    needs_by_shape!(arith;
        Int: same,
        MultiplyAdd: same,
        Fixed: same,
        Compare: to_mask,
        Widen: widened,
        WidenMultiplyAdd: widened,
        Wide: wide,
        Narrow: narrowed,
        Clip: narrowed,
        ;
        VArith::Carry { vd, vs2, b, .. } => same(*vd, *vs2, b, true),
        VArith::CarryOut { vd, vs2, b, with_carry, .. } => to_mask(*vd, *vs2, b, *with_carry),
        VArith::Merge { vd, vs2, b } => same(*vd, *vs2, b, true),
        VArith::Copy { vd, b } => by_width(group(*vd, Eew::Same), None, second(b), false),
        VArith::Extend { of, vd, vs2, masked, .. } => {
            by_width(group(*vd, Eew::Same), group(*vs2, of.eew()), None, *masked)
        }
    )
}

#[tactic(auto, unfolding(crate::specs::Needs::needs_of_mask))]
fn needs_mask(insn: &VMask) -> Operands
    ensures { result ≡ needs_of_mask insn.now }
{
    match insn {
        VMask::Logic { vd, vs2, vs1, .. } => by_width(mask(*vd), mask(*vs2), mask(*vs1), false),
        VMask::Count { vs2, masked, .. } => by_width(None, mask(*vs2), None, *masked),
        VMask::First { vs2, masked, .. } => by_width(None, mask(*vs2), None, *masked),
        VMask::SetFirst {
            vd,
            vs2,
            masked,
            ..
        } => apart(mask(*vd), mask(*vs2), None, *masked),
        VMask::Iota { vd, vs2, masked } => {
            apart(group(*vd, Eew::Same), mask(*vs2), None, *masked)
        }
        VMask::Index { vd, masked } => by_width(group(*vd, Eew::Same), None, None, *masked),
    }
}

/// The operands of an instruction from a group to a group of SEW that shares no register with it.
fn group_apart(vd: Reg, vs2: Reg, vs1: Option<Operand>, is_masked: bool) -> Operands
    ensures { result ≡ operands_of (group_of eew.Same vd) (group_of eew.Same vs2)
        vs1 is_masked Sharing.Nothing }
{
    apart(group(vd, Eew::Same), group(vs2, Eew::Same), vs1, is_masked)
}

#[tactic(auto, unfolding(crate::specs::Needs::needs_of_perm))]
fn needs_perm(insn: &VPerm) -> Operands
    ensures { result ≡ needs_of_perm insn.now }
{
    match insn {
        VPerm::SlideUp {
            vd,
            vs2,
            masked,
            ..
        } => group_apart(*vd, *vs2, None, *masked),
        VPerm::SlideDown {
            vd,
            vs2,
            masked,
            ..
        } => by_width(group(*vd, Eew::Same), group(*vs2, Eew::Same), None, *masked),
        VPerm::SlideOneUp {
            vd,
            vs2,
            masked,
            ..
        } => group_apart(*vd, *vs2, None, *masked),
        VPerm::SlideOneDown {
            vd,
            vs2,
            masked,
            ..
        } => by_width(group(*vd, Eew::Same), group(*vs2, Eew::Same), None, *masked),
        VPerm::Gather { vd, vs2, b, masked } => group_apart(*vd, *vs2, second(b), *masked),
        VPerm::Gather16 {
            vd,
            vs2,
            vs1,
            masked,
        } => group_apart(*vd, *vs2, group(*vs1, Eew::Fixed(Width::W16)), *masked),
        VPerm::Compress { vd, vs2, vs1 } => group_apart(*vd, *vs2, mask(*vs1), false),
    }
}

/// The operands of a reduction to a single element of this width.
fn fold(vd: Reg, to: Eew, vs2: Reg, vs1: Reg, is_masked: bool) -> Operands
    ensures { result ≡ operands_of (single_of to vd) (group_of eew.Same vs2)
        (single_of to vs1) is_masked Sharing.ByWidth }
{
    by_width(
        single(vd, to),
        group(vs2, Eew::Same),
        single(vs1, to),
        is_masked,
    )
}

#[tactic(auto, unfolding(crate::specs::Needs::needs_of_reduce))]
fn needs_reduce(insn: &VReduce) -> Operands
    ensures { result ≡ needs_of_reduce insn.now }
{
    match insn {
        VReduce::Fold {
            vd,
            vs2,
            vs1,
            masked,
            ..
        } => fold(*vd, Eew::Same, *vs2, *vs1, *masked),
        VReduce::WidenSum {
            vd,
            vs2,
            vs1,
            masked,
            ..
        } => fold(*vd, Eew::Double, *vs2, *vs1, *masked),
    }
}

#[tactic(auto, unfolding(crate::specs::Needs::needs_of_move))]
fn needs_move(insn: &VMove) -> Operands
    ensures { result ≡ needs_of_move insn.now }
{
    match insn {
        VMove::ToScalar { vs2, .. } => by_width(None, single(*vs2, Eew::Same), None, false),
        VMove::FromScalar { vd, .. } => by_width(single(*vd, Eew::Same), None, None, false),
        VMove::Whole { count, vd, vs2 } => {
            by_width(whole(*vd, *count), whole(*vs2, *count), None, false)
        }
    }
}

/// The operands of a load or store of `values`: a load's destination, or the data of a store.
#[tactic(auto, unfolding(crate::specs::Needs::access_operands))]
fn access_operands(
    direction: Direction,
    values: Option<Operand>,
    vs2: Option<Operand>,
    is_masked: bool,
) -> Operands
    ensures { result ≡ access_operands_of direction values vs2 is_masked }
{
    match direction {
        Direction::Load => by_width(values, vs2, None, is_masked),
        Direction::Store => by_width(None, vs2, values, is_masked),
    }
}

#[tactic(auto, unfolding(crate::specs::Needs::needs_of_access, crate::specs::Needs::needs_of_place))]
fn needs_access(access: &VMem) -> Operands
    ensures { result ≡ needs_of_access access.now }
{
    let direction = access.direction;
    let values = access.values;
    match access.place {
        Addressing::Unit { width, masked } => access_operands(
            direction,
            group(values, Eew::Fixed(width)),
            None,
            masked,
        ),
        Addressing::Strided { width, masked, .. } => access_operands(
            direction,
            group(values, Eew::Fixed(width)),
            None,
            masked,
        ),
        Addressing::Indexed {
            width,
            vs2,
            masked,
            ..
        } => access_operands(
            direction,
            group(values, Eew::Same),
            group(vs2, Eew::Fixed(width)),
            masked,
        ),
        Addressing::Mask => access_operands(direction, mask(values), None, false),
        Addressing::Whole { count, .. } => {
            access_operands(direction, whole(values, count), None, false)
        }
    }
}
